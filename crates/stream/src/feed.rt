// The bytes of an input, however they come: each line that ends is answered.
ghost use Rattle.std.specs.Prelude.{◌≡◌, []};
ghost use Rattle.stream.specs.Stream.{text_of, Feeds, EndsInput};

use crate::answers::put_line;
use crate::hear::{Heard, hear};
use crate::{KEPT, Stream};
use commands::codes::Refusal;
use lines::answer_line::ANSWER_LENGTH;
use sheet::answer::{ANSWER_NUMBERS, numbers_of};
use sheet::step::{COMMAND_NUMBERS, step_at};

// The stream afterwards, how many bytes of the input were consumed, and how many of answers produced.
#[derive(Clone, Copy)]
pub struct Progress {
    pub stream: Stream,
    pub consumed: usize,
    pub produced: usize,
}

// How many bytes were produced, and the refusal: 1 for the line that has not ended, 9 where its
// answer line has no room, none where no byte is left. No Result: with 1 bytes are produced too.
#[derive(Clone, Copy)]
pub struct Ended {
    pub produced: usize,
    pub refusal: Option<Refusal>,
}

impl Stream {
    // No bytes.
    pub fn fresh() -> Stream
        ensures { text_of result ≡ [] }
    {
        Stream {
            line: [0; KEPT],
            len: 0,
        }
    }

    // Consumes bytes in turn while an answer line has room, and runs the commands of the lines that end on the sheet that lies in the words.
    #[tactic(auto, using(crate::proofs::turns::TurnLaws::turning_none, crate::proofs::turns::FeedLaws::length_feeding, crate::proofs::turns::FeedLaws::take_min, crate::proofs::turns::TurnLaws::turned_full, crate::proofs::turns::ConsumedLaws::ends_count))]
    pub fn feed(self, state: &mut [u32], bytes: &[u8], out: &mut [u8]) -> Progress
        ensures { Feeds state.old self bytes.now out.old result state.new out.new }
    {
        let mut line = self.line;
        let mut len = self.len.min(KEPT);
        let mut produced = 0;
        // a turn consumes a byte, or a whole line
        let mut i = 0;
        while i < bytes.len() && ANSWER_LENGTH <= out.len() - produced {
            let mut f = [0u32; COMMAND_NUMBERS];
            match hear(bytes, i, &line[..len], &mut f) {
                Heard::Run(consumed) => {
                    let mut six = [0u32; ANSWER_NUMBERS];
                    let _ = step_at(state, &f, 0, &mut six, 0);
                    put_line(out, produced, &six);
                    produced += ANSWER_LENGTH;
                    i += consumed;
                    len = 0;
                }
                Heard::Ill => {
                    put_line(out, produced, &numbers_of(Err(Refusal::IllFormed)));
                    produced += ANSWER_LENGTH;
                    i += 1;
                    len = 0;
                }
                Heard::Byte(b) => {
                    if len < KEPT {
                        line[len] = b;
                        len += 1;
                    }
                    i += 1;
                }
            }
        }
        Progress {
            stream: Stream { line, len },
            consumed: i,
            produced,
        }
    }

    // The end of the input: the answer line of the bytes that are left, or no byte.
    #[tactic(auto, using(crate::proofs::turns::AnswerLaws::end_none, crate::proofs::turns::AnswerLaws::end_short, crate::proofs::turns::AnswerLaws::end_answered), unfolding(commands::specs::Answers::answer_of))]
    pub fn ended(self, out: &mut [u8]) -> Ended
        ensures { EndsInput self out.old result out.new }
    {
        if self.len == 0 {
            return Ended {
                produced: 0,
                refusal: None,
            };
        }
        if out.len() < ANSWER_LENGTH {
            return Ended {
                produced: 0,
                refusal: Some(Refusal::LentTooShort),
            };
        }
        put_line(out, 0, &numbers_of(Err(Refusal::IllFormed)));
        Ended {
            produced: ANSWER_LENGTH,
            refusal: Some(Refusal::IllFormed),
        }
    }
}
