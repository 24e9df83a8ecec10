// The results of a call.
ghost use Rattle.std.specs.Prelude.{◌≡◌, ◌≤◌, ◌++◌, ◌-◌, length, replicate};

// The first `count` of the words are shown.
// The memory is fixed, so that the count stands beside its array; `few` ties them.
#[derive(Clone, Copy)]
pub(crate) struct Results {
    pub count: usize,
    pub words: [u32; 6],
    ghost few: { count ≤ 6 },
}

impl Results {
    // These words are shown.
    pub(crate) fn of<const N: usize>(shown: [u32; N]) -> Results
        requires { N ≤ 6 }
        ensures count { result.count ≡ N }
        ensures words { result.words ≡ shown.entry ++ replicate (6 - N) 0 }
    {
        let mut words = [0; 6];
        words[..N].copy_from_slice(&shown);
        Results { count: N, words }
    }

    pub(crate) fn shown(&self) -> &[u32]
        ensures { length result.now ≤ 6 }
    {
        &self.words[..self.count]
    }
}
