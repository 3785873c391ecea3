// A fact source, and the push host that takes a report too.
ghost use Rattle.std.specs.Borrow.{GName};
ghost use Rattle.std.specs.Prelude.{◌≡◌, ℕ, ◌≤◌, List, [], ◌∷◌, ◌++◌, length, drop, ℤ, is_ok, if◌then◌else◌, nat_lt};
ghost use Rattle.std.specs.List.{slice_get};

// The report has no room for one more byte. An error of its own, as is the stack's: neither crate stands on the other.
#[derive(Clone, Copy, Debug, PartialEq, Eq)]
pub struct Full;

// A fixed list of at most 64 numbers, what a rule can ask about a push.
pub trait Facts {
    ghost facts: { Self → List ℤ };

    fn count(&self) -> usize
        ensures answer { result ≡ length (facts self.now) }
        ensures small { result ≤ 64 };

    // Fact k, counted from 0, or nothing.
    fn fact(&self, k: usize) -> Option<i32>
        ensures { result ≡ slice_get (facts self.now) k };
}

// A fact source that also has a report: bytes that a rule writes for the freelancer to read.
pub trait PushHost: Facts {
    ghost report: { Self → List ℕ };

    // The free bytes behind the report, as the caller left them: capacity is the length of both.
    ghost spare: { Self → List ℕ };

    // Which host it is: no byte puts another in its place.
    ghost place: { Self → GName };

    // Capacity less length.
    fn space(&self) -> usize
        ensures { result ≡ length (spare self.now) };

    // Appends one byte at the end; refuses exactly when full, and alters nothing then.
    fn put(&mut self, b: u8) -> Result<(), Full>
        ensures answer { is_ok result ≡ nat_lt 0 (length (spare self.old)) }
        ensures after { report self.new ≡ (if is_ok result then report self.old ++ (b ∷ []) else report self.old) }
        ensures spare { spare self.new ≡ (if is_ok result then drop 1 (spare self.old) else spare self.old) }
        ensures facts { Self.Facts.facts self.new ≡ Self.Facts.facts self.old }
        ensures place { place self.new ≡ place self.old };
}
