ghost use Rattle.std.specs.Prelude.{◌≡◌};
ghost use Rattle.life_marks.specs.ClientMarks.{seen};
ghost use Rattle.marked_client.specs.Testing.{answers_test, because, birth_test, download_test, file_test, history_test, ident_test, is_birth, is_last, is_life, is_named, is_named_in, message_test, owner_test};

use crate::refusal::MarkedRefusal;
use life_bytes::{Answered, Answers, Life, Mark, Runs};
use life_marks::ClientMarks;
use sync_client::ClientRefusal;
use sync_data::{Id, Ident};
use sync_messages::{Download, Message};

/// What the tests of an answer look at beside the marks.
#[derive(Clone, Copy)]
pub(crate) struct Standing {
    pub has_lives: bool,
    pub is_closed: bool,
    pub id: Option<Id>,
    pub ident: Ident,
    pub cursor: u32,
}

/// Why what stands in the file doesn't let an answer through.
pub(crate) fn answers_test(
    marks: &ClientMarks,
    at: &Standing,
    answers: &Answers,
) -> Option<MarkedRefusal>
    ensures { result ≡ answers_test (seen marks.now) at.now answers.now }
{
    if let Some(why) = owner_test(at, answers) {
        return Some(why);
    }
    if let Some(why) = birth_test(marks, at, answers.birth()) {
        return Some(why);
    }
    match answers.inner() {
        Answered::Message(message) => message_test(marks, at, answers, message),
        Answered::GivenUp(_) => file_test(marks, answers.last()),
    }
}

/// The answer is for this client.
fn owner_test(at: &Standing, answers: &Answers) -> Option<MarkedRefusal>
    ensures { result ≡ owner_test at.now answers.now }
{
    if at.is_closed {
        return because(ClientRefusal::Closed);
    }
    match at.id {
        None => because(ClientRefusal::NotBorn),
        Some(id) => {
            if at.has_lives && id == answers.uuid() && is_named(at.ident, id, answers.inner()) {
                return None;
            }
            because(ClientRefusal::NotMine)
        }
    }
}

pub(crate) fn because(why: ClientRefusal) -> Option<MarkedRefusal>
    ensures { result ≡ because why }
{
    Some(MarkedRefusal::Client(why))
}

fn is_named(ident: Ident, id: Id, inner: &Answered) -> bool
    ensures { result ≡ is_named ident id inner.now }
{
    match inner {
        Answered::Message(message) => is_named_in(ident, id, message),
        Answered::GivenUp(given) => given.by() == ident,
    }
}

fn is_named_in(ident: Ident, id: Id, message: &Message) -> bool
    ensures { result ≡ is_named_in ident id message.now }
{
    match message {
        Message::Ident(given) => given.uuid() == id,
        Message::Download(download) => download.ident() == ident,
        Message::Stored(stored) => stored.ident() == ident,
        _ => true,
    }
}

/// The answer is of the history that gave the client its ident.
fn birth_test(marks: &ClientMarks, at: &Standing, birth: Life) -> Option<MarkedRefusal>
    ensures { result ≡ birth_test (seen marks.now) at.now birth }
{
    if at.ident == 0 || is_birth(marks.birth(), birth) {
        return None;
    }
    Some(MarkedRefusal::OtherHistory)
}

fn is_birth(own: Option<Life>, birth: Life) -> bool
    ensures { result ≡ is_birth own birth }
{
    match own {
        None => true,
        Some(own) => own == birth,
    }
}

fn message_test(
    marks: &ClientMarks,
    at: &Standing,
    answers: &Answers,
    message: &Message,
) -> Option<MarkedRefusal>
    ensures { result ≡ message_test (seen marks.now) at.now answers.now message.now }
{
    match message {
        Message::Refused { .. } => None,
        Message::Ident(given) => {
            if let Some(why) = ident_test(at, given.ident()) {
                return Some(why);
            }
            file_test(marks, answers.last())
        }
        Message::Download(download) => download_test(marks, at, download, answers),
        _ => file_test(marks, answers.last()),
    }
}

/// The client has no other ident.
fn ident_test(at: &Standing, ident: Ident) -> Option<MarkedRefusal>
    ensures { result ≡ ident_test at.now ident }
{
    if at.ident == 0 || at.ident == ident {
        return None;
    }
    because(ClientRefusal::IdentDiffers {
        kept: at.ident,
        got: ident,
    })
}

/// The Download begins at the cursor or before it, and is of the history of which the client has a beginning.
fn download_test(
    marks: &ClientMarks,
    at: &Standing,
    download: &Download,
    answers: &Answers,
) -> Option<MarkedRefusal>
    ensures { result ≡ download_test (seen marks.now) at.now download.now answers.now }
{
    let from = download.from();
    if from > at.cursor {
        return because(ClientRefusal::Gap {
            cursor: at.cursor,
            from,
        });
    }
    if let Some(why) = history_test(marks, at, from, answers.runs()) {
        return Some(why);
    }
    file_test(marks, answers.last())
}

/// The entry before the cursor has the life that the client took. What ends before the cursor is passed over.
fn history_test(
    marks: &ClientMarks,
    at: &Standing,
    from: u32,
    lives: &Runs,
) -> Option<MarkedRefusal>
    ensures { result ≡ history_test (seen marks.now) at.now from lives.now }
{
    if at.cursor == 0 || is_last(marks.last(), lives.life_of(at.cursor.saturating_sub(from))) {
        return None;
    }
    Some(MarkedRefusal::Diverged { version: at.cursor })
}

fn is_last(last: Option<Life>, told: Option<Life>) -> bool
    ensures { result ≡ is_last last told }
{
    match told {
        None => true,
        Some(life) => is_life(last, life),
    }
}

/// The client's last transaction in the history is of its file.
fn file_test(marks: &ClientMarks, last: Mark) -> Option<MarkedRefusal>
    ensures { result ≡ file_test (seen marks.now) last }
{
    if last.number == 0 || is_life(marks.numbers().life_of(last.number - 1), last.life) {
        return None;
    }
    Some(MarkedRefusal::FileForked {
        number: last.number,
    })
}

pub(crate) fn is_life(last: Option<Life>, life: Life) -> bool
    ensures { result ≡ is_life last life }
{
    match last {
        None => false,
        Some(last) => last == life,
    }
}
