ghost use Rattle.std.specs.Prelude.{◌≡◌};

use crate::hashing::print_of;
use std::marker::Model;
use terms::Env;

/// An environment with its fingerprint, which is made once. Contracts see the environment alone.
#[derive(Drop)]
pub struct Fingerprinted {
    env: Env,
    print: u64,
}

impl Model for Fingerprinted {
    ghost use Rattle.terms.specs.declared.parts.Parts.{Parts};

    ghost Value = { Parts };

    ghost view = { λ f. f.env };
}

impl Fingerprinted {
    /// The environment, with a fingerprint made now. Takes time linear in the parts and no memory.
    pub fn new(env: Env) -> Fingerprinted
        ensures same { result ≡ env }
    {
        let print = print_of(&env);
        Fingerprinted { env, print }
    }

    /// The environment.
    pub fn env(&self) -> &Env
        ensures same { result.now ≡ self.now }
    {
        &self.env
    }

    /// The fingerprint, as it was made. It decides only who shares.
    pub fn print(&self) -> u64 {
        self.print
    }
}
