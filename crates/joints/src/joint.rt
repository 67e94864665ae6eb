// What a joint is: a radius, and a fillet for each gap, under the fillet law.
ghost use Rattle.std.specs.Prelude.{◌≡◌, ℕ};
ghost use Rattle.space.specs.Laws.{FilletLaw};

pub trait Joint {
    // the radius k: from this gap on the joint does nothing
    ghost radius: { Self → ℕ };

    // the fillet at each gap, by which an operator moves the nearer of two distances
    ghost fillet: { Self → ℕ → ℕ };

    fn radius(&self) -> u16
        ensures { result ≡ radius self.now };

    fn fillet(&self, gap: u32) -> u16
        ensures { result ≡ fillet self.now gap };

    ghost smooth: { (j : Self) → FilletLaw (radius j) (fillet j) };
}
