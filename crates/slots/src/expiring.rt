// What has an expiry.
ghost use Rattle.std.specs.Prelude.{◌≡◌, ℕ};

pub trait Expiring {
    // The second at which it is over.
    ghost end: { Self → ℕ };

    // The same with another expiry.
    ghost lasting: { ℕ → Self → Self };

    fn expiry(&self) -> u64
        ensures { result ≡ end self.now };

    fn set_expiry(&mut self, expiry: u64)
        ensures { self.new ≡ lasting expiry self.old };

    ghost lasts: { (e : ℕ) (s : Self) → end (lasting e s) ≡ e };
}
