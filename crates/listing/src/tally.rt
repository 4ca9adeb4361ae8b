// The counts of a save, a token at a time.
ghost use Rattle.std.specs.Prelude.{◌≡◌, ◌<◌, ◌&&◌};
ghost use Rattle.std.proofs.Math.Option.{some};
ghost use Rattle.form.specs.Numbers.{MAX};
ghost use Rattle.form.specs.Values.{Open};
ghost use Rattle.form.specs.Keys.{makes_key};
ghost use Rattle.listing.specs.Tallies.{Sound, TalliesTo};

use token::Token;

// What has been counted up to a place, and the depth there; of the token before it, whether it is Equal, whether it is itself directly after an
// Equal, and whether what follows can make a key of it.
#[derive(Clone, Copy, Default)]
pub(crate) struct Tally {
    pub tokens: usize,
    pub containers: usize,
    pub keys: usize,
    pub strays: usize,
    pub depth: usize,
    pub equal: bool,
    pub value: bool,
    pub candidate: bool,
}

impl Tally {
    // Whether Open makes a key of the token before it.
    fn bracketed(self) -> bool
        ensures { result ≡ (self.candidate && makes_key self.value (some Open)) }
    {
        self.candidate && !self.value
    }

    // The tally after one more token.
    pub(crate) fn after(self, t: Token) -> Tally
        requires sound { Sound self }
        requires tokens_bound { self.tokens < MAX }
        ensures { TalliesTo self t result }
    {
        let mut c = self;
        c.tokens += 1;
        c.equal = false;
        c.value = self.equal;
        c.candidate = false;
        match t {
            Token::Open => {
                c.containers += 1;
                c.depth += 1;
                if self.bracketed() {
                    c.keys += 1;
                }
            }
            Token::Close => {
                if c.depth == 0 {
                    c.strays += 1;
                } else {
                    c.depth -= 1;
                }
            }
            Token::Equal => {
                c.equal = true;
                if self.candidate {
                    c.keys += 1;
                }
            }
            _ => {
                c.candidate = c.depth == 0;
            }
        }
        c
    }
}
