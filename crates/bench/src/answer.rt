// Answers on standard output: bytes that were read go to the stream, and the answers that it
// produces to `write_all`.
ghost use Rattle.std.specs.Prelude.{◌≡◌, ◌+◌, ◌<◌, ◌≤◌, ◌^◌, [], length, IsOkUnless};
ghost use Rattle.sheet.specs.Words.{fresh_words, lent_step};
ghost use Rattle.stream.specs.Stream.{held, text_of, fed_into};
ghost use Rattle.bench.specs.Feeding.{most, held_by, handed_by, handed_more, LastHanded, AllFed};

use crate::standard::{Failure, write_all};
use commands::codes::Refusal;
use sheet::rows::STATE_WORDS;
use std::io::{Stdin, Stdout};
use stream::Stream;

// How many bytes are read at once, and lent for answers.
pub(crate) const ROOM: usize = 65536;

// Standard input and output, the words of a sheet, the bytes of a line that has not ended, and the
// bytes that are lent for answers. Of the bytes answered last, how many were consumed, and how many
// bytes of their answers were handed to `write_all`.
#[derive(Drop)]
pub(crate) struct Session {
    pub stdin: Stdin,
    pub stdout: Stdout,
    pub state: [u32; STATE_WORDS],
    pub stream: Stream,
    pub out: [u8; ROOM],
    pub consumed: usize,
    pub handed: usize,
}

impl Session {
    // A fresh sheet, and no bytes.
    pub(crate) fn fresh(stdin: Stdin, stdout: Stdout) -> Self
        ensures { held_by result ≡ held (fresh_words []) [] }
    {
        Session {
            stdin,
            stdout,
            state: [0; STATE_WORDS],
            stream: Stream::fresh(),
            out: [0; ROOM],
            consumed: 0,
            handed: 0,
        }
    }

    // Hands so many of the lent bytes, the first ones, to `write_all`.
    fn hand_over(&mut self, produced: usize) -> Result<(), Failure>
        requires within { produced ≤ length self.old.out }
        requires fits { self.old.handed + produced < 2 ^ 64 }
        ensures handed { self.new ≡ record self.old { handed = self.old.handed + produced } }
        ensures failed { IsOkUnless result Failure.Writing }
    {
        let answers = &self.out[..produced];
        self.handed += answers.len();
        write_all(self.stdout, answers)
    }

    // Feeds the stream once, and hands over the answers.
    fn answer_some(&mut self, bytes: &[u8]) -> Result<(), Failure>
        requires consumed { self.old.consumed + length bytes.now < 2 ^ 64 }
        requires handed { self.old.handed + length self.old.out < 2 ^ 64 }
        ensures fed { handed_by self.new ≡ handed_more self.old (fed_into lent_step (held_by self.old) bytes.now self.old.out) }
        ensures room { length self.new.out ≡ length self.old.out }
        ensures failed { IsOkUnless result Failure.Writing }
    {
        let fed = self.stream.feed(&mut self.state, bytes, &mut self.out);
        self.stream = fed.stream;
        self.consumed += fed.consumed;
        self.hand_over(fed.produced)
    }

    // Feeds the stream with all the bytes, in as many turns as the answers need room, unless a
    // write fails. A `while`, since a turn goes on by as many bytes as `feed` consumed.
    #[tactic(auto, using(crate::proofs::FeedingLaws::fed_more, crate::proofs::FeedingLaws::handed_most, crate::proofs::FeedingLaws::fed_some))]
    pub(crate) fn answer_all(&mut self, bytes: &[u8]) -> Result<(), Failure>
        requires { length bytes.now ≤ most }
        ensures { AllFed (held_by self.old) bytes.now self.new result }
    {
        self.consumed = 0;
        self.handed = 0;
        while self.consumed < bytes.len() {
            self.answer_some(&bytes[self.consumed..])?;
        }
        Ok(())
    }

    // Answers the bytes that are left at the end of the input. Gives the refusal of the answer, none
    // where no byte is left.
    pub(crate) fn answer_end(&mut self) -> Result<Option<Refusal>, Failure>
        ensures handed { LastHanded (text_of self.old.stream) self.old.out self.new result }
        ensures kept { held_by self.new ≡ held_by self.old }
    {
        let end = self.stream.ended(&mut self.out);
        self.handed = 0;
        self.hand_over(end.produced)?;
        Ok(end.refusal)
    }
}
