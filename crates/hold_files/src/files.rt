ghost use Rattle.std.specs.Prelude.{◌≡◌, ℕ, List, [], ◌++◌, ◌<◌, ◌≤◌, length, take, drop, IsSome, IfOk, OnOk, OnErr};
ghost use Rattle.hold_files.specs.Told.{Told, Rose, Keeps, KeepsOrEmpties, KeepsSaid, OnlyReads, OnlyWrites, OnlySays};

use hold_base::Name;

/// A read, a write or a saying failed; the counts of faults tell that it did.
#[derive(Clone, Copy, Debug, PartialEq, Eq)]
pub struct Failed;

/// Files by name, and the bytes that were said. What holds of them is told by one ghost member: contents
/// and the bytes said where they can be told, and how often each sort of call has failed.
pub trait Files {
    ghost told: { Self → Told };

    /// Copies bytes of a file's content from this place on to the front of `into`, and answers their
    /// number, which is 0 at the end.
    fn read_at(&mut self, name: &Name, at: u64, into: &mut [u8]) -> Result<usize, Failed>
        ensures count { IfOk result (λ n. n ≤ length into.old) }
        ensures copied { IfOk result (λ n. (text : List ℕ) → (told self.old).content name.now ≡ Some text
            → take n into.new ≡ take n (drop at text)) }
        ensures end { IfOk result (λ n. (text : List ℕ) → (told self.old).content name.now ≡ Some text
            → n ≡ 0 → 0 < length into.old → length text ≤ at) }
        ensures failed { OnErr result (Rose ((told self.old).read_faults name.now) ((told self.new).read_faults name.now)) }
        ensures stays { OnlyReads (told self.old) (told self.new) };

    /// Makes a file empty.
    fn start(&mut self, name: &Name) -> Result<(), Failed>
        ensures emptied { OnOk result (IsSome ((told self.old).content name.now) → (told self.new).content name.now ≡ Some []) }
        ensures failed { OnErr result (Rose ((told self.old).write_faults name.now) ((told self.new).write_faults name.now)) }
        ensures left { OnErr result (KeepsOrEmpties (told self.old) (told self.new) name.now) }
        ensures stays { OnlyWrites (told self.old) (told self.new) name.now };

    /// Appends the front of a piece to a file, and answers how many bytes that is: at least one, where the
    /// piece has any.
    fn put(&mut self, name: &Name, piece: &[u8]) -> Result<usize, Failed>
        ensures count { IfOk result (λ n. n ≤ length piece.now) }
        ensures some { IfOk result (λ n. 0 < length piece.now → 0 < n) }
        ensures appended { IfOk result (λ n. (text : List ℕ) → (told self.old).content name.now ≡ Some text
            → (told self.new).content name.now ≡ Some (text ++ take n piece.now)) }
        ensures failed { OnErr result (Rose ((told self.old).write_faults name.now) ((told self.new).write_faults name.now)) }
        ensures left { OnErr result (Keeps (told self.old) (told self.new) name.now) }
        ensures stays { OnlyWrites (told self.old) (told self.new) name.now };

    /// Appends the front of a piece to the bytes said, and answers how many bytes that is: at least one,
    /// where the piece has any.
    fn say(&mut self, piece: &[u8]) -> Result<usize, Failed>
        ensures count { IfOk result (λ n. n ≤ length piece.now) }
        ensures some { IfOk result (λ n. 0 < length piece.now → 0 < n) }
        ensures appended { IfOk result (λ n. (said : List ℕ) → (told self.old).said ≡ Some said
            → (told self.new).said ≡ Some (said ++ take n piece.now)) }
        ensures failed { OnErr result (Rose (told self.old).say_faults (told self.new).say_faults) }
        ensures left { OnErr result (KeepsSaid (told self.old) (told self.new)) }
        ensures stays { OnlySays (told self.old) (told self.new) };
}
