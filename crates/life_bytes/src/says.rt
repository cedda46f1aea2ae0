ghost use Rattle.std.specs.Prelude.{◌≡◌, ◌≤◌, ◌<◌, ◌^◌, ◌&&◌, nat_le, length, is_ok, true, IfOk};
ghost use Rattle.sync_messages.specs.Parts.{most_listed};
ghost use Rattle.life_bytes.specs.Parts.{most_saves, most_tokens_together};
ghost use Rattle.life_bytes.specs.Envelopes.{is_says, is_said, changes_said, first_number, follow, lives_beside, rise_within, tokens_of, go_with};

use crate::mark::Mark;
use crate::runs::Runs;
use crate::said::Said;
use crate::saves::Saving;
use std::marker::Model;
use sync_data::Id;
use sync_messages::Change;

/// The most tokens of their frontiers together.
const MOST_TOKENS: u64 = 65_536;

/// These are no Says: the message isn't one that a client sends; the numbers of an Upload don't follow each other; the runs
/// don't have the life of the number before the first change and of each change, or there are runs without a change; the saves
/// aren't of its changes in rising order; or their frontiers have more than 65,536 tokens together.
#[derive(Clone, Copy, Debug, PartialEq, Eq)]
pub struct BadSays;

/// What a client with lives sends: its uuid, its cursor with the life of the entry before it, the lives of the number before
/// the first change and of all changes of an Upload, which of these save other transactions, and a message.
#[derive(Drop)]
pub struct Says {
    uuid: Id,
    cursor: Mark,
    runs: Runs,
    saves: Vec<Saving>,
    inner: Said,
}

impl Model for Says {
    ghost use Rattle.life_bytes.specs.Envelopes.{SaysParts, HoldsSays};

    ghost Value = { SaysParts };

    ghost view = { λ a. record { uuid = a.uuid; cursor = a.cursor; lives = a.runs; saves = a.saves.items; inner = a.inner } };

    ghost invariant = { λ a. HoldsSays (record { uuid = a.uuid; cursor = a.cursor; lives = a.runs; saves = a.saves.items; inner = a.inner }) };
}

impl Says {
    /// That message with these lives, and at most 4,096 saves. It takes no memory.
    pub fn new(
        uuid: Id,
        cursor: Mark,
        runs: Runs,
        saves: Vec<Saving>,
        inner: Said,
    ) -> Result<Says, BadSays>
        requires few { length saves.items ≤ most_saves }
        ensures ok { IfOk result (λ says. says ≡ record { uuid = uuid; cursor = cursor; lives = runs; saves = saves.items; inner = inner }) }
        ensures good { is_ok result ≡ is_says (record { uuid = uuid; cursor = cursor; lives = runs; saves = saves.items; inner = inner }) }
    {
        if !goes_with(&inner, &runs, saves.as_slice()) {
            drop((runs, saves, inner));
            return Err(BadSays);
        }
        Ok(Says {
            uuid,
            cursor,
            runs,
            saves,
            inner,
        })
    }

    /// The client's uuid.
    pub fn uuid(&self) -> Id
        ensures { result ≡ self.now.uuid }
    {
        self.uuid
    }

    /// The client's cursor, and the life of the entry before it.
    pub fn cursor(&self) -> Mark
        ensures { result ≡ self.now.cursor }
    {
        self.cursor
    }

    /// The lives of the number before the first change of an Upload and of each change.
    pub fn runs(&self) -> &Runs
        ensures value { result.now ≡ self.now.lives }
        ensures good { is_says self.now ≡ true }
    {
        &self.runs
    }

    /// Which changes save other transactions.
    pub fn saves(&self) -> &[Saving]
        ensures value { result.now ≡ self.now.saves }
        ensures few { length result.now ≤ most_saves }
    {
        self.saves.as_slice()
    }

    /// The message.
    pub fn inner(&self) -> &Said
        ensures { result.now ≡ self.now.inner }
    {
        &self.inner
    }

    /// The message, taken out.
    pub fn into_inner(self) -> Said
        ensures { result ≡ self.inner }
    {
        self.inner
    }
}

/// Whether these lives and saves go with that message, and a client sends it.
fn goes_with(inner: &Said, runs: &Runs, saves: &[Saving]) -> bool
    requires { length saves.now ≤ most_saves }
    ensures { result ≡ (is_said inner.now && (go_with (changes_said inner.now) runs.now saves.now && nat_le (tokens_of saves.now) most_tokens_together)) }
{
    inner.is_said() && go_with(inner.changes(), runs, saves) && tokens_of(saves) <= MOST_TOKENS
}

/// Whether the changes follow each other, each has its life, and each save is one of them.
fn go_with(changes: &[Change], runs: &Runs, saves: &[Saving]) -> bool
    requires { length changes.now ≤ most_listed }
    ensures { result ≡ go_with changes.now runs.now saves.now }
{
    let first = first_number(changes);
    follow(first, changes)
        && runs.len() == lives_beside(changes)
        && rise_within(first, first + changes.len() as u64, saves)
}

fn first_number(changes: &[Change]) -> u64
    ensures value { result ≡ first_number changes.now }
    ensures small { result < 2 ^ 32 }
{
    match changes {
        [] => 0,
        [change, ..] => change.number() as u64,
    }
}

fn follow(first: u64, changes: &[Change]) -> bool
    requires few { length changes.now ≤ most_listed }
    requires small { first < 2 ^ 32 }
    ensures { result ≡ follow first changes.now }
{
    let mut next = first;
    for change in changes {
        if change.number() as u64 != next {
            return false;
        }
        next += 1;
    }
    true
}

fn lives_beside(changes: &[Change]) -> u32
    requires { length changes.now ≤ most_listed }
    ensures { result ≡ lives_beside changes.now }
{
    if changes.is_empty() {
        0
    } else {
        changes.len() as u32 + 1
    }
}

fn rise_within(low: u64, high: u64, saves: &[Saving]) -> bool
    ensures { result ≡ rise_within low high saves.now }
{
    let mut next = low;
    for saving in saves {
        let number = saving.number as u64;
        if number < next || number >= high {
            return false;
        }
        next = number + 1;
    }
    true
}

fn tokens_of(saves: &[Saving]) -> u64
    requires { length saves.now ≤ most_saves }
    ensures { result ≡ tokens_of saves.now }
{
    let mut count = 0;
    for saving in saves {
        count += saving.saves.frontier().len() as u64;
    }
    count
}
