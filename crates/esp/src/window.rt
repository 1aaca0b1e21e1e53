// The replay window (RFC 2406, clause 3.4.3): each sequence number comes in once, and none that lies 64 or
// more below the highest.
ghost use Rattle.std.specs.Prelude.{◌≡◌, ℕ, List, [], ◌∷◌};
ghost use Rattle.esp.specs.Figures.{WindowFigures};
ghost use Rattle.esp.specs.Numbers.{Stands, may_pass};
ghost use Rattle.esp.specs.Window.{empty, noted, passing};

// How many numbers the window remembers, the highest among them.
const WIDTH: u32 = 64;

#[derive(Clone, Copy, PartialEq, Eq, Debug)]
pub struct ReplayWindow {
    // The highest number recorded, 0 where there is none.
    highest: u32,
    // Bit j is set where the number `highest - j` is recorded.
    bitmap: u64,
}

impl ReplayWindow {
    // A window that has recorded nothing.
    pub fn new() -> ReplayWindow
        ensures stored { result ≡ empty }
        ensures numbers { Stands result [] }
        ensures figures { WindowFigures }
    {
        ReplayWindow {
            highest: 0,
            bitmap: 0,
        }
    }

    // Whether a packet with this number may come in.
    #[tactic(auto, using(crate::proofs::Marks::passes_by_numbers), unfolding(crate::specs::Window::passing))]
    pub fn passes(&self, number: u32) -> bool
        ensures stored { result ≡ passing self.now number }
        ensures numbers { (ns : List ℕ) → Stands self.now ns → result ≡ may_pass ns number }
    {
        if number == 0 {
            return false;
        }
        if number > self.highest {
            return true;
        }
        let back = self.highest - number;
        back < WIDTH && (self.bitmap >> back) & 1 == 0
    }

    // Records a number, so that it does not pass again.
    #[tactic(auto, using(crate::proofs::Marks::records_by_numbers), unfolding(crate::specs::Window::noted))]
    pub fn record(&mut self, number: u32)
        ensures stored { self.new ≡ noted self.old number }
        ensures numbers { (ns : List ℕ) → Stands self.old ns → Stands self.new (number ∷ ns) }
    {
        if number > self.highest {
            let ahead = number - self.highest;
            self.bitmap = if ahead < WIDTH {
                (self.bitmap << ahead) | 1
            } else {
                1
            };
            self.highest = number;
        } else {
            let back = self.highest - number;
            if back < WIDTH {
                self.bitmap |= 1 << back;
            }
        }
    }
}
