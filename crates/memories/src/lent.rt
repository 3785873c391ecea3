// A memory over a lent slice, whatever the slice consists of.
ghost use Rattle.std.specs.Borrow.{GName};
ghost use Rattle.std.specs.Prelude.{◌≡◌, ℕ, ◌<◌, ◌≤◌, List, length, min, ℤ, is_ok, OnOk, OnErr, nat_lt, slice_set};
ghost use Rattle.std.specs.List.{slice_get};
ghost use Rattle.std.proofs.Common.{SFits, w32};
ghost use Rattle.runtime.specs.First.{first};
ghost use Rattle.memories.specs.Kinds.{around};

use runtime::memory::{Memory, Outside};

// What a lent slice consists of. The limit stands here and not in `Buffer`: an impl with a lifetime can give no constant
// beside its ghost member.
pub trait Part {
    // The most cells that a memory of such parts has.
    const MOST_CELLS: usize;

    ghost MOST_CELLS: { ℕ };

    ghost few: { MOST_CELLS ≤ 65536 };
}

// A lent slice, and the cells that lie in it.
pub trait Buffer: Drop {
    type Part: Part;

    // The cells that lie whole in it.
    ghost cells: { Self → List ℤ };

    // What lies behind the cells of a memory.
    ghost behind: { Self → List ℤ };

    // Which slice it is.
    ghost place: { Self → GName };

    // The second is the first with v in cell i.
    ghost Written: { Self → ℕ → ℤ → Self → Type 0 };

    fn cell_count(&self) -> usize
        ensures { result ≡ length (cells self.now) };

    fn cell(&self, i: usize) -> Option<i32>
        ensures { result ≡ slice_get (cells self.now) i };

    fn set_cell(&mut self, i: usize, v: i32) -> Result<(), Outside>
        ensures answer { is_ok result ≡ nat_lt i (length (cells self.old)) }
        ensures ok { OnOk result (Written self.old i v self.new) }
        ensures err { OnErr result (self.new ≡ self.old) }
        ensures place { place self.new ≡ place self.old };

    ghost one_written: { (a b : Self) (i : ℕ) (v : ℤ) → SFits w32 v → i < length (cells a) → Written a i v b → cells b ≡ slice_set (cells a) i v };

    ghost none_behind: { (a b : Self) (i : ℕ) (v : ℤ) → i < min Self.Part.MOST_CELLS (length (cells a)) → Written a i v b → behind b ≡ behind a };
}

#[derive(Drop)]
pub struct Lent<B: Buffer> {
    pub buffer: B,
}

impl<B: Buffer> Memory for Lent<B> {
    const MAX_CELLS: usize = B::Part::MOST_CELLS;

    ghost MAX_CELLS = { B.Part.MOST_CELLS };

    ghost cells = { λ m. first B.Part.MOST_CELLS (B.cells m.buffer) };

    ghost around = { λ m. around (B.place m.buffer) (B.behind m.buffer) };

    ghost few = { B.Part.few };

    fn len(&self) -> usize {
        self.buffer.cell_count().min(Self::MAX_CELLS)
    }

    fn read(&self, i: usize) -> Option<i32> {
        if i < Self::MAX_CELLS {
            self.buffer.cell(i)
        } else {
            None
        }
    }

    fn write(&mut self, i: usize, v: i32) -> Result<(), Outside>
        ensures answer { is_ok result ≡ nat_lt i (length (first B.Part.MOST_CELLS (B.cells self.old.buffer))) }
        ensures after { first B.Part.MOST_CELLS (B.cells self.new.buffer) ≡ slice_set (first B.Part.MOST_CELLS (B.cells self.old.buffer)) i v }
        ensures around { around (B.place self.new.buffer) (B.behind self.new.buffer) ≡ around (B.place self.old.buffer) (B.behind self.old.buffer) }
        ensures lent { OnOk result (B.Written self.old.buffer i v self.new.buffer) }
        ensures kept { OnErr result (self.new.buffer ≡ self.old.buffer) }
    {
        // The buffer may have cells past the kind's limit, so it alone cannot refuse.
        if i >= Self::MAX_CELLS {
            return Err(Outside);
        }
        self.buffer.set_cell(i, v)
    }
}
