// Where statements of a line begin: the next one in text order, and the part after the ELSE of an IF.
ghost use Rattle.std.specs.Prelude.{◌≡◌, true};
ghost use Rattle.grammar.specs.Trees.{Part};
ghost use Rattle.reader.specs.Lines.{else_of};
ghost use Rattle.reader.specs.bridge.Walking.{follow_of, start_of};

use crate::walking::{Follow, Onward, Walk, follows, walk_on};
use statements::{StatementRead, statement_at};
use words::Place;

// The statement after one, in text order, if it was read and one follows.
pub fn next_statement(read: Option<StatementRead>) -> Option<Place>
    ensures { result ≡ start_of (follow_of read) }
{
    match follows(read?)? {
        Follow::Statement(at) | Follow::Part(at) | Follow::Else(at) => Some(at),
        Follow::End => None,
    }
}

// The ELSE of the IF whose part begins at a place: nested IFs take theirs first.
pub fn else_of(line: &[u8], part: Place) -> Option<Place>
    ensures { result ≡ else_of line.now part }
{
    let mut walk = Walk {
        at: part,
        first: true,
        waiting: 0,
    };
    loop {
        let read = statement_at(line, walk.at, walk.first)?;
        match walk_on(walk.waiting, read)? {
            Onward::Statement(next) => walk = next,
            Onward::Else(at) => return Some(at),
            Onward::End => return None,
        }
    }
}
