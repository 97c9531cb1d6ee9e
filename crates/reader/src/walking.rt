// The walk over a line, from statement to statement in text order.
ghost use Rattle.std.specs.Prelude.{◌≡◌, ◌^◌, ◌≤◌, Some};
ghost use Rattle.reader.specs.bridge.Walking.{follow_of, follows_done, onward_of};

use grammar::{ends_line, is_keyword, is_symbol};
use statements::StatementRead;
use words::{Place, Scanned, Sign, Word};

// What follows a statement in text order: another, perhaps the first of a part; ELSE and then one; or the line's end.
#[derive(Clone, Copy)]
pub enum Follow {
    Statement(Place),
    Part(Place),
    Else(Place),
    End,
}

// Where a walk stands: at a statement, perhaps the first of a part, and how many IFs before it have no ELSE.
#[derive(Clone, Copy)]
pub struct Walk {
    pub at: Place,
    pub first: bool,
    pub waiting: usize,
}

// What a walk comes to after a statement: another; an ELSE that no IF waits for; or the line's end.
#[derive(Clone, Copy)]
pub enum Onward {
    Statement(Walk),
    Else(Place),
    End,
}

// What follows a statement that was read, unless what stands there may not.
pub(crate) fn follows(read: StatementRead) -> Option<Follow>
    ensures { result ≡ follow_of (Some read) }
{
    match read {
        StatementRead::Choice(own) => Some(Follow::Part(own.ahead.next)),
        StatementRead::Done(own) => after_done(own.ahead),
    }
}

// What the token after a statement lets follow.
fn after_done(ahead: Scanned) -> Option<Follow>
    ensures { result ≡ follows_done ahead }
{
    let token = ahead.token;
    let next = ahead.next;
    if is_symbol(Sign::Colon, token) {
        return Some(Follow::Statement(next));
    }
    if is_keyword(Word::Else, token) {
        return Some(Follow::Else(next));
    }
    if ends_line(token) {
        Some(Follow::End)
    } else {
        None
    }
}

// The walk after a statement that was read: a part waits for its ELSE, and an ELSE is that of the nearest IF that waits.
pub(crate) fn walk_on(waiting: usize, read: StatementRead) -> Option<Onward>
    requires { waiting ≤ 2 ^ 63 }
    ensures { result ≡ onward_of waiting (follow_of (Some read)) }
{
    match follows(read)? {
        Follow::Statement(at) => Some(Onward::Statement(Walk {
            at,
            first: false,
            waiting,
        })),
        Follow::Part(at) => Some(Onward::Statement(Walk {
            at,
            first: true,
            waiting: waiting + 1,
        })),
        Follow::Else(at) => {
            if waiting == 0 {
                return Some(Onward::Else(at));
            }
            Some(Onward::Statement(Walk {
                at,
                first: true,
                waiting: waiting - 1,
            }))
        }
        Follow::End => Some(Onward::End),
    }
}
