ghost use Rattle.std.specs.Prelude.{◌≡◌, ◌&&◌, ◌==◌, length, is_ok, true, IfOk};
ghost use Rattle.life_bytes.specs.Envelopes.{is_answers, is_answered, lives_answered};

use crate::answered::Answered;
use crate::life::Life;
use crate::mark::Mark;
use crate::runs::Runs;
use std::marker::Model;
use sync_data::Id;

/// These are no Answers: the message isn't one that a server sends; the runs don't have the life of the entry before the
/// first one of a Download and of each of its entries; or there are runs without a Download.
#[derive(Clone, Copy, Debug, PartialEq, Eq)]
pub struct BadAnswers;

/// What a server sends to a client with lives: the client's uuid, the server's birth, the number of the client's last
/// transaction in the history with its life, the lives of the entry before the first one and of all entries of a Download,
/// and a message.
#[derive(Drop)]
pub struct Answers {
    uuid: Id,
    birth: Life,
    last: Mark,
    runs: Runs,
    inner: Answered,
}

impl Model for Answers {
    ghost use Rattle.std.specs.Prelude.{◌≡◌, true};
    ghost use Rattle.life_bytes.specs.Envelopes.{AnswersParts, is_answers};

    ghost Value = { AnswersParts };

    ghost view = { λ a. record { uuid = a.uuid; birth = a.birth; last = a.last; lives = a.runs; inner = a.inner } };

    ghost invariant = { λ a. is_answers (record { uuid = a.uuid; birth = a.birth; last = a.last; lives = a.runs; inner = a.inner }) ≡ true };
}

impl Answers {
    /// That message with these lives. It takes no memory.
    pub fn new(
        uuid: Id,
        birth: Life,
        last: Mark,
        runs: Runs,
        inner: Answered,
    ) -> Result<Answers, BadAnswers>
        ensures ok { IfOk result (λ answers. answers ≡ record { uuid = uuid; birth = birth; last = last; lives = runs; inner = inner }) }
        ensures good { is_ok result ≡ is_answers (record { uuid = uuid; birth = birth; last = last; lives = runs; inner = inner }) }
    {
        if !goes_with(&inner, &runs) {
            drop((runs, inner));
            return Err(BadAnswers);
        }
        Ok(Answers {
            uuid,
            birth,
            last,
            runs,
            inner,
        })
    }

    /// The client's uuid.
    pub fn uuid(&self) -> Id
        ensures { result ≡ self.now.uuid }
    {
        self.uuid
    }

    /// The life of the server's first entry, or that of its opening.
    pub fn birth(&self) -> Life
        ensures { result ≡ self.now.birth }
    {
        self.birth
    }

    /// The client's last transaction in the history.
    pub fn last(&self) -> Mark
        ensures { result ≡ self.now.last }
    {
        self.last
    }

    /// The lives of the entry before the first one of a Download, and of each of its entries.
    pub fn runs(&self) -> &Runs
        ensures value { result.now ≡ self.now.lives }
        ensures good { is_answers self.now ≡ true }
    {
        &self.runs
    }

    /// The message.
    pub fn inner(&self) -> &Answered
        ensures { result.now ≡ self.now.inner }
    {
        &self.inner
    }

    /// The message, taken out.
    pub fn into_inner(self) -> Answered
        ensures { result ≡ self.inner }
    {
        self.inner
    }
}

/// Whether these lives go with that message, and a server sends it.
fn goes_with(inner: &Answered, runs: &Runs) -> bool
    ensures { result ≡ (is_answered inner.now && (length runs.now == lives_answered inner.now)) }
{
    inner.is_answered() && runs.len() == inner.lives()
}
