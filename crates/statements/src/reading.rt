// The readers of statements: each judges one statement by itself, an IF up to its part.
ghost use Rattle.std.specs.Prelude.{◌≡◌, true, ◌&&◌, List, ℕ, Some};
ghost use Rattle.grammar.specs.Tests.{choose, is_symbol, is_keyword, ends_statement, on_name, on_line};
ghost use Rattle.grammar.specs.Trees.{Formula, Variable, goto, next, next_of, restore, restore_to, while};
ghost use Rattle.grammar.specs.Formulas.{Reading, good, after, formula_of};
ghost use Rattle.expressions.specs.Types.{depth_of};
ghost use Rattle.statements.specs.Statements.{bad, done, choice, on_formula, variable_of, assign_at, is_separator, print_at, if_at, step_at, limit_at, for_at, target_at, input_at, data_at, read_at, by_word, begun_by, begun_at};
ghost use Rattle.expressions.specs.Types.{is_whole};
ghost use Rattle.statements.specs.Parts.{is_number};
ghost use Rattle.expressions.specs.bridge.Answers.{capped_depth};
ghost use Rattle.statements.specs.bridge.Answers.{own_of, known_sort, name_of, is_quoted, formed_read, begun_answer, bound_of};

use crate::leading::{Lead, lead_at};
use expressions::{Sort, formula_at, is_of, is_some, is_whole};
use grammar::{ends_statement, is_keyword, is_symbol, line_of};
use items::item_at;
use scanner::token_at;
use words::{LineNumber, Name, Place, Scanned, Sign, Token, Word};

// What is known of a statement by itself: the token that follows it, how deep its formulas nest, whether its types are right, and
// the line that it names.
#[derive(Clone, Copy)]
pub struct Own {
    pub ahead: Scanned,
    pub deepest: u8,
    pub typed: bool,
    pub names: Option<LineNumber>,
}

// A statement that reads: it is done, or it is an IF, whose part begins after the token ahead.
#[derive(Clone, Copy)]
pub enum StatementRead {
    Done(Own),
    Choice(Own),
}

impl StatementRead {
    pub fn own(self) -> Own
        ensures { result ≡ own_of self }
    {
        match self {
            StatementRead::Done(own) | StatementRead::Choice(own) => own,
        }
    }
}

fn name_at(ahead: Scanned) -> Option<Name>
    ensures { result ≡ name_of ahead.token }
{
    match ahead.token {
        Token::Named(name) => Some(name),
        _ => None,
    }
}

// Whether a quoted text stands there.
fn text_stands(ahead: Scanned) -> bool
    ensures { result ≡ is_quoted ahead.token }
{
    matches!(ahead.token, Token::Quoted(_))
}

// Whether a sign stands there, and whether a word does.
fn sign_stands(sign: Sign, ahead: Scanned) -> bool
    ensures { result ≡ is_symbol sign ahead.token }
{
    is_symbol(sign, ahead.token)
}

fn word_stands(word: Word, ahead: Scanned) -> bool
    ensures { result ≡ is_keyword word ahead.token }
{
    is_keyword(word, ahead.token)
}

// The token after one.
fn token_after(line: &[u8], ahead: Scanned) -> Scanned
    ensures { result ≡ after line.now ahead }
{
    token_at(line, ahead.next)
}

// A statement with formulas, and no line named.
fn formed(ahead: Scanned, deepest: u8, typed: bool) -> StatementRead
    ensures { result ≡ formed_read ahead deepest typed }
{
    StatementRead::Done(Own {
        ahead,
        deepest,
        typed,
        names: None,
    })
}

// A statement with no formula, and no line named.
fn plain(ahead: Scanned) -> StatementRead
    ensures { result ≡ formed_read ahead 0 true }
{
    formed(ahead, 0, true)
}

// GOTO n and GOSUB n, from the line number on.
fn jump(line: &[u8], ahead: Scanned) -> Option<StatementRead>
    ensures { result ≡ begun_answer (on_line ahead.token (λ l. done (goto l) (after line.now ahead)) bad) }
{
    let number = line_of(ahead.token)?;
    Some(StatementRead::Done(Own {
        ahead: token_after(line, ahead),
        deepest: 0,
        typed: true,
        names: Some(number),
    }))
}

// v = e, from the variable on.
fn assignment_to(line: &[u8], ahead: Scanned) -> Option<StatementRead>
    ensures { result ≡ begun_answer (on_name ahead.token (λ v. assign_at line.now (variable_of line.now v) (after line.now ahead)) bad) }
{
    let name = name_at(ahead)?;
    assignment(line, name, token_after(line, ahead))
}

// v = e, from the equals sign on.
fn assignment(line: &[u8], name: Name, ahead: Scanned) -> Option<StatementRead>
    ensures { result ≡ begun_answer (assign_at line.now (variable_of line.now name) ahead) }
{
    if !sign_stands(Sign::Equal, ahead) {
        return None;
    }
    let read = formula_at(line, token_after(line, ahead))?;
    Some(formed(read.ahead, read.deepest, is_of(name.kind, read.sort)))
}

// Any sequence of `,`, `;` and formulas, no two formulas adjacent.
fn print(line: &[u8], ahead: Scanned) -> Option<StatementRead>
    ensures { result ≡ begun_answer (print_at line.now ahead) }
{
    let mut here = ahead;
    let mut depth = 0;
    let mut typed = true;
    loop {
        if separates(here) {
            here = token_after(line, here);
        } else if ends(here) {
            return Some(formed(here, depth, typed));
        } else {
            let read = formula_at(line, here)?;
            depth = depth.max(read.deepest);
            typed &= is_some(read.sort);
            here = read.ahead;
            if !separates(here) {
                return Some(formed(here, depth, typed));
            }
        }
    }
}

fn ends(ahead: Scanned) -> bool
    ensures { result ≡ ends_statement ahead.token }
{
    ends_statement(ahead.token)
}

fn separates(ahead: Scanned) -> bool
    ensures { result ≡ is_separator ahead.token }
{
    sign_stands(Sign::Comma, ahead) || sign_stands(Sign::Semicolon, ahead)
}

// IF e THEN, or IF e GOTO n, from the condition on.
fn condition(line: &[u8], ahead: Scanned) -> Option<StatementRead>
    ensures { result ≡ begun_answer (if_at line.now (formula_of line.now ahead)) }
{
    let read = formula_at(line, ahead)?;
    if !part_begins(line, read.ahead) {
        return None;
    }
    Some(StatementRead::Choice(Own {
        ahead: read.ahead,
        deepest: read.deepest,
        typed: is_whole(read.sort),
        names: None,
    }))
}

// THEN, or GOTO and a line number.
fn part_begins(line: &[u8], ahead: Scanned) -> bool
    ensures { (c : Formula) → if_at line.now (good c ahead) ≡ choose result (λ _. choice c ahead) (λ _. bad) }
{
    if word_stands(Word::Then, ahead) {
        return true;
    }
    if !word_stands(Word::Goto, ahead) {
        return false;
    }
    let target = token_after(line, ahead);
    line_of(target.token).is_some()
}

// A formula that stands in a FOR: the token that follows it, and what is known so far.
#[derive(Clone, Copy)]
pub struct Bound {
    pub ahead: Scanned,
    pub deepest: u8,
    pub typed: bool,
}

// The formula after a token, and whether it and what stood before it are whole numbers.
fn bounded(line: &[u8], ahead: Scanned, depth: u8, typed: bool) -> Option<Bound>
    ensures { result ≡ bound_of (formula_of line.now (after line.now ahead)) depth typed }
{
    let read = formula_at(line, token_after(line, ahead))?;
    Some(Bound {
        ahead: read.ahead,
        deepest: depth.max(read.deepest),
        typed: typed && is_whole(read.sort),
    })
}

// FOR v = e TO e [STEP e], from the variable on.
fn loop_head(line: &[u8], ahead: Scanned) -> Option<StatementRead>
    ensures { result ≡ begun_answer (on_name ahead.token (λ v. for_at line.now (variable_of line.now v) (after line.now ahead)) bad) }
{
    let name = name_at(ahead)?;
    let equals = token_after(line, ahead);
    if !sign_stands(Sign::Equal, equals) {
        return None;
    }
    let start = bounded(line, equals, 0, is_of(name.kind, Sort::Whole))?;
    limit(line, start)
}

// TO e [STEP e]
fn limit(line: &[u8], start: Bound) -> Option<StatementRead>
    ensures { (v : Variable) (x : Reading) → Some start ≡ bound_of x 0 (is_number v)
        → result ≡ begun_answer (on_formula x (λ from u. limit_at line.now v from u)) }
{
    if !word_stands(Word::To, start.ahead) {
        return None;
    }
    let limit = bounded(line, start.ahead, start.deepest, start.typed)?;
    step(line, limit)
}

// [STEP e]
fn step(line: &[u8], limit: Bound) -> Option<StatementRead>
    ensures { (v : Variable) (from : Formula) (x : Reading)
        → Some limit ≡ bound_of x (capped_depth (depth_of from)) (is_number v && is_whole (known_sort from))
        → result ≡ begun_answer (on_formula x (λ to u. step_at line.now v from to u)) }
{
    if !word_stands(Word::Step, limit.ahead) {
        return Some(formed(limit.ahead, limit.deepest, limit.typed));
    }
    let by = bounded(line, limit.ahead, limit.deepest, limit.typed)?;
    Some(formed(by.ahead, by.deepest, by.typed))
}

// NEXT [v]
fn loop_end(line: &[u8], ahead: Scanned) -> Option<StatementRead>
    ensures { result ≡ begun_answer (on_name ahead.token (λ v. done (next_of (variable_of line.now v)) (after line.now ahead)) (done next ahead)) }
{
    let Some(name) = name_at(ahead) else {
        return Some(plain(ahead));
    };
    Some(formed(token_after(line, ahead), 0, is_of(name.kind, Sort::Whole)))
}

// WHILE e, from the condition on.
fn repeat_head(line: &[u8], ahead: Scanned) -> Option<StatementRead>
    ensures { result ≡ begun_answer (on_formula (formula_of line.now ahead) (λ c u. done (while c) u)) }
{
    let read = formula_at(line, ahead)?;
    Some(formed(read.ahead, read.deepest, is_whole(read.sort)))
}

// LINE INPUT ["text";] v, from INPUT on.
fn line_input(line: &[u8], ahead: Scanned) -> Option<StatementRead>
    ensures { result ≡ begun_answer (choose (is_keyword Word.Input ahead.token) (λ _. input_at line.now (after line.now ahead)) (λ _. bad)) }
{
    if !word_stands(Word::Input, ahead) {
        return None;
    }
    let asked = token_after(line, ahead);
    if !text_stands(asked) {
        return target(line, asked);
    }
    let semicolon = token_after(line, asked);
    if !sign_stands(Sign::Semicolon, semicolon) {
        return None;
    }
    target(line, token_after(line, semicolon))
}

// The variable that LINE INPUT fills.
fn target(line: &[u8], ahead: Scanned) -> Option<StatementRead>
    ensures { (text : List ℕ) → result ≡ begun_answer (target_at line.now text ahead) }
{
    let name = name_at(ahead)?;
    Some(formed(token_after(line, ahead), 0, is_of(name.kind, Sort::Text)))
}

// DATA and its items, from its own word on.
fn data(line: &[u8], word: Scanned) -> Option<StatementRead>
    ensures { result ≡ begun_answer (data_at line.now word) }
{
    let mut at = word.next;
    loop {
        let item = item_at(line, at)?;
        if !item.more {
            return Some(plain(token_at(line, item.end)));
        }
        at = Place(item.end.0 + 1);
    }
}

// READ v, .., from the first variable on.
fn read(line: &[u8], ahead: Scanned) -> Option<StatementRead>
    ensures { result ≡ begun_answer (read_at line.now ahead) }
{
    let mut here = ahead;
    loop {
        name_at(here)?;
        let next = token_after(line, here);
        if !sign_stands(Sign::Comma, next) {
            return Some(plain(next));
        }
        here = token_after(line, next);
    }
}

// RESTORE [n], from the line number on.
fn restore(line: &[u8], ahead: Scanned) -> Option<StatementRead>
    ensures { result ≡ begun_answer (on_line ahead.token (λ l. done (restore_to l) (after line.now ahead)) (done restore ahead)) }
{
    match line_of(ahead.token) {
        None => Some(plain(ahead)),
        Some(_) => jump(line, ahead),
    }
}

// A statement by the word that leads it, from the token after that word on; DATA from its own.
fn by_word(line: &[u8], word: Word, from: Scanned) -> Option<StatementRead>
    ensures { result ≡ begun_answer (by_word line.now word from) }
{
    match word {
        Word::Let => assignment_to(line, from),
        Word::Print => print(line, from),
        Word::If => condition(line, from),
        Word::Goto | Word::Gosub => jump(line, from),
        Word::For => loop_head(line, from),
        Word::Next => loop_end(line, from),
        Word::While => repeat_head(line, from),
        Word::Line => line_input(line, from),
        Word::Data => data(line, from),
        Word::Read => read(line, from),
        Word::Restore => restore(line, from),
        Word::Else | Word::Return | Word::End | Word::Stop | Word::Rem | Word::Wend => {
            Some(plain(from))
        }
        _ => None,
    }
}

// The statement that is led so.
pub fn statement_led(line: &[u8], lead: Option<Lead>) -> Option<StatementRead>
    ensures { result ≡ begun_answer (begun_by line.now lead) }
{
    let lead = lead?;
    by_word(line, lead.word, lead.ahead)
}

// The statement at a place; `first` says that it is the first of a part of an IF, where a line number is a GOTO.
pub fn statement_at(line: &[u8], at: Place, first: bool) -> Option<StatementRead>
    ensures { result ≡ begun_answer (begun_at line.now first at.0) }
{
    statement_led(line, lead_at(line, at, first))
}
