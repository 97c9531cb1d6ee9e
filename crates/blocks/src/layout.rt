// The variable tables as the block of bytes that a host keeps between a run and its questions.
ghost use Rattle.std.specs.Prelude.{◌≡◌, ◌+◌, ◌*◌, ◌%◌, ◌≤◌, length, take, drop};
ghost use Rattle.blocks.specs.Blocks.{words_from, word_bytes, tables_in, block_of, Long};
ghost use Rattle.variables.specs.Variables.{most_variables};

use space::{Offset, copy_in};
use variables::{Numbers, Strings, Tables};

// How many bytes the words have.
const WORD_BYTES: usize = 2 * Tables::MOST;

// Where each part of a block begins, and where the last one ends.
const NUMBER_NAMES: usize = 0;

const WORDS: usize = NUMBER_NAMES + Tables::NAMES;

const STRING_NAMES: usize = WORDS + WORD_BYTES;

const LENGTHS: usize = STRING_NAMES + Tables::NAMES;

const COUNTS: usize = LENGTHS + Tables::MOST;

const LONG: usize = COUNTS + 2;

// Names, words, names, lengths and two counts: see `write_block`.
pub type Block = [u8; LONG];

// A count as a block has it: there are at most 64 variables of a kind.
fn count_byte(count: usize) -> u8
    ensures { result ≡ count % 256 }
{
    (count % 256) as u8
}

// A part of a block, as many bytes as are wanted of it.
fn part_at<const N: usize>(block: &[u8], from: usize) -> [u8; N]
    requires { from + N ≤ length block.now }
    ensures { result ≡ take N (drop from block.now) }
{
    let mut part = [0; N];
    part.copy_from_slice(&block[from..from + N]);
    part
}

// The words from their bytes.
fn words_of(bytes: &[u8]) -> [u16; Tables::MOST]
    requires { length bytes.now ≡ 2 * most_variables }
    ensures { result ≡ words_from most_variables bytes.now }
{
    let mut words = [0; Tables::MOST];
    for (i, word) in words.iter_mut().enumerate() {
        *word = u16::from_le_bytes([bytes[2 * i], bytes[2 * i + 1]]);
    }
    words
}

// The words in a block.
fn words_at(block: &[u8], from: usize) -> [u16; Tables::MOST]
    requires { from + 2 * most_variables ≤ length block.now }
    ensures { result ≡ words_from most_variables (take (2 * most_variables) (drop from block.now)) }
{
    let end = from + WORD_BYTES;
    words_of(&block[from..end])
}

// The bytes of the words.
fn bytes_of(words: &[u16]) -> [u8; WORD_BYTES]
    requires { length words.now ≡ most_variables }
    ensures { result ≡ word_bytes words.now }
{
    let mut bytes = [0; WORD_BYTES];
    for (i, word) in words.iter().enumerate() {
        let [low, high] = word.to_le_bytes();
        bytes[2 * i] = low;
        bytes[2 * i + 1] = high;
    }
    bytes
}

// The tables that a block means, whatever bytes it has.
pub fn tables_in(block: &Block) -> Tables
    ensures { result ≡ tables_in block.now }
{
    let numbers = Numbers {
        names: part_at(block, NUMBER_NAMES),
        words: words_at(block, WORDS),
        count: usize::from(block[COUNTS]),
    };
    let strings = Strings {
        names: part_at(block, STRING_NAMES),
        lengths: part_at(block, LENGTHS),
        count: usize::from(block[COUNTS + 1]),
    };
    Tables { numbers, strings }
}

// Tables are written to a block, each part after the one before it.
pub fn write_block(block: &mut Block, tables: &Tables)
    ensures { (block.new ≡ block_of tables.now) × Long tables.now }
{
    let numbers = &tables.numbers;
    let strings = &tables.strings;
    let word_bytes = bytes_of(&numbers.words);
    let counts = [count_byte(numbers.count), count_byte(strings.count)];
    copy_in(block, Offset(NUMBER_NAMES), &numbers.names);
    copy_in(block, Offset(WORDS), &word_bytes);
    copy_in(block, Offset(STRING_NAMES), &strings.names);
    copy_in(block, Offset(LENGTHS), &strings.lengths);
    copy_in(block, Offset(COUNTS), &counts);
}
