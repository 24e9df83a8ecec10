// The whole of standard input: reads, and what each of them brings, until the input ends.
ghost use Rattle.std.specs.Prelude.{length};
ghost use Rattle.bench.specs.Counts.{Moved};
ghost use Rattle.bench.specs.Feeding.{held_by, GotFed, ReadFed, InputFed};

use crate::answer::{ROOM, Session};
use crate::standard::{Failure, read};

impl Session {
    // Answers what a read brought: so many bytes at the start of the chunk, none at the end of the
    // input.
    #[tactic(auto, using(crate::proofs::ReadLaws::got_failed, crate::proofs::ReadLaws::got_all, crate::proofs::ReadLaws::got_some))]
    fn answer_read(
        &mut self,
        got: Result<usize, Failure>,
        chunk: &[u8; ROOM],
    ) -> Result<usize, Failure>
        requires { Moved (length chunk.now) got }
        ensures { GotFed (held_by self.old) got chunk.now self.new result }
    {
        let n = got?;
        self.answer_all(&chunk[..n])?;
        Ok(n)
    }

    // Reads once, and answers the lines that ended.
    fn read_once(&mut self, chunk: &mut [u8; ROOM]) -> Result<usize, Failure>
        ensures { ReadFed (held_by self.old) chunk.new self.new result }
    {
        let got = read(self.stdin, chunk);
        self.answer_read(got, chunk)
    }

    // Answers the lines of standard input, and at its end the bytes that are left. Gives how many
    // reads brought bytes. A proved loop has to end, so this one counts its reads, up to a number
    // that no run comes to.
    #[tactic(auto, using(crate::proofs::ReadLaws::nothing_read, crate::proofs::ReadLaws::read_more))]
    pub(crate) fn answer_input(&mut self) -> Result<u64, Failure>
        ensures { InputFed (held_by self.old) self.new result }
    {
        let mut chunk = [0; ROOM];
        for reads in 0..u64::MAX {
            let n = self.read_once(&mut chunk)?;
            if n == 0 {
                self.answer_end()?;
                return Ok(reads);
            }
        }
        Err(Failure::TooManyReads)
    }
}
