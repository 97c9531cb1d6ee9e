// Assignment to variables, old and new, in tables that are lent, and the space at the end of a run.
ghost use Rattle.std.specs.Prelude.{Some, ◌≡◌, List, ℕ, ◌+◌, ◌≤◌, ◌<◌, length, take, drop};
ghost use Rattle.space.specs.Moves.{cleared};
ghost use Rattle.variables.specs.bridge.Memory.{with_name, numbers_of, strings_of, numbers_left, strings_left, number_appended, number_stored, string_appended, string_replaced, string_stored, bytes_replaced, space_replaced, space_stored, Storable};
ghost use Rattle.variables.specs.Variables.{most_variables};
ghost use Rattle.whole.specs.Texts.{longest_string};
ghost use Rattle.words.specs.Names.{name_bytes, telling_of};

use crate::tables::{NameTable, Numbers, Strings, Tables, offset_of, slot_of};
use space::{Offset, clear_from, copy_in, move_bytes};
use whole::Text;
use words::{Name, telling_of};

fn put_name(names: &mut NameTable, slot: usize, line: &[u8], name: Name)
    requires { slot < most_variables }
    ensures { names.new ≡ with_name names.old slot (telling_of (name_bytes line.now name)) }
{
    let telling = telling_of(line, name);
    copy_in(names, Offset(Name::WIDTH * slot), &telling);
}

// The new bytes, which stand right after all strings', as they are kept while the others move.
fn kept_bytes(space: &[u8], from: Offset, len: usize) -> [u8; Text::LONGEST]
    requires { (len ≤ longest_string) × (from.0 + len ≤ length space.now) }
    ensures { take len result ≡ take len (drop from.0 space.now) }
{
    let mut bytes = [0; Text::LONGEST];
    bytes[..len].copy_from_slice(&space[from.0..from.0 + len]);
    bytes
}

// The new bytes take the old ones' place; the later strings' move up or down.
fn replace_bytes(space: &mut [u8], start: Offset, old: usize, used: Offset, len: usize)
    requires { (start.0 + old ≤ used.0) × ((used.0 + len ≤ length space.old) × (len ≤ longest_string)) }
    ensures { space.new ≡ bytes_replaced start.0 old used.0 space.old len }
{
    if old == len {
        move_bytes(space, used, start, len);
        return;
    }
    let later = start.0 + old;
    let rest = used.0 - later;
    let bytes = kept_bytes(space, used, len);
    move_bytes(space, Offset(later), Offset(start.0 + len), rest);
    copy_in(space, start, &bytes[..len]);
}

impl Numbers {
    // A new number variable after the others, if there is room; else all stays as it was.
    fn append(&mut self, line: &[u8], name: Name, word: u16) -> Option<usize>
        ensures { numbers_left result self.new ≡ number_appended self.old (telling_of (name_bytes line.now name)) word }
    {
        let slot = self.count;
        if Tables::MOST <= slot {
            return None;
        }
        put_name(&mut self.names, slot, line, name);
        self.words[slot] = word;
        self.count = slot + 1;
        Some(slot)
    }

    // A number variable is set, and its entry told; a 65th has no room.
    pub fn store(&mut self, line: &[u8], name: Name, word: u16) -> Option<usize>
        ensures { numbers_left result self.new ≡ number_stored self.old (telling_of (name_bytes line.now name)) word }
    {
        match slot_of(&self.names, line, name) {
            Some(slot) if slot < self.count => {
                self.words[slot] = word;
                Some(slot)
            }
            _ => self.append(line, name, word),
        }
    }
}

impl Strings {
    // The new bytes stand right after all strings' already. Where all bytes end then; without room all stays as it was.
    fn append(&mut self, used: Offset, line: &[u8], name: Name, len: u8) -> Option<Offset>
        requires { used.0 + len < 18446744073709551616 }
        ensures { strings_left result used.0 self.new ≡ string_appended self.old used.0 (telling_of (name_bytes line.now name)) len }
    {
        let slot = self.count;
        if Tables::MOST <= slot {
            return None;
        }
        put_name(&mut self.names, slot, line, name);
        self.lengths[slot] = len;
        self.count = slot + 1;
        Some(Offset(used.0 + usize::from(len)))
    }

    // An old string variable, by its entry.
    fn replace(&mut self, used: Offset, slot: usize, space: &mut [u8], len: u8) -> Offset
        requires { Storable self.old.lengths used.0 space.old len × (slot < most_variables) }
        ensures { (strings_left (Some result) used.0 self.new ≡ string_replaced self.old used.0 slot len)
            × (space.new ≡ space_replaced self.old.lengths used.0 slot space.old len) }
    {
        let old = usize::from(self.lengths[slot]);
        let start = offset_of(&self.lengths, slot);
        let long = usize::from(len);
        replace_bytes(space, start, old, used, long);
        self.lengths[slot] = len;
        Offset(used.0 - old + long)
    }

    // A string variable is given the finished text of `len` bytes that stands right after all strings', and where all bytes end is told; a
    // 65th has no room.
    pub fn store(
        &mut self,
        used: Offset,
        line: &[u8],
        name: Name,
        space: &mut [u8],
        len: u8,
    ) -> Option<Offset>
        requires { Storable self.old.lengths used.0 space.old len }
        ensures { (strings_left result used.0 self.new ≡ string_stored self.old used.0 (telling_of (name_bytes line.now name)) len)
            × (space.new ≡ space_stored self.old used.0 (telling_of (name_bytes line.now name)) space.old len) }
    {
        match slot_of(&self.names, line, name) {
            Some(slot) if slot < self.count => Some(self.replace(used, slot, space, len)),
            _ => self.append(used, line, name, len),
        }
    }
}

// Zeros after the strings' bytes.
pub fn clean_up(space: &mut [u8], used: Offset)
    ensures { space.new ≡ cleared space.old used.0 }
{
    clear_from(space, used);
}
