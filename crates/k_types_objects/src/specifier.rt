//! What the specifiers of a declaration say (C17 6.7.1 to 6.7.3).
ghost use Rattle.std.specs.Prelude.{◌≡◌};
ghost use Rattle.k_types_meaning.specs.Declarations as rules;

use k_num::Seq;
use k_tree::Word;
use k_types_meaning::Base;
use k_types_names::{base_of, says_const, says_static};
use std::marker::Model;

/// What specifiers say of a declaration: what they name, if they name a type and say static only where they may,
/// and whether they say const.
#[derive(Drop)]
pub struct Saying {
    base: Option<Base>,
    is_const: bool,
}

impl Model for Saying {
    ghost use Rattle.k_types_meaning.specs.Declarations as declarations;

    ghost Value = { declarations.Saying };

    ghost view = { λ s. record { names_base = s.base; fixed = s.is_const } };
}

impl Saying {
    /// What specifiers say; at file scope they may say static.
    pub fn of_specifiers(file: bool, specs: &Seq<Word>) -> Saying
        ensures { result ≡ rules.saying file specs.now }
    {
        Saying {
            base: named_base(file, specs),
            is_const: says_const(specs),
        }
    }

    /// What is named, if a type is.
    pub fn base(&self) -> Option<Base>
        ensures { result ≡ self.now.names_base }
    {
        self.base
    }

    /// Whether what is named is const.
    pub fn fixed(&self) -> bool
        ensures { result ≡ self.now.fixed }
    {
        self.is_const
    }
}

/// What specifiers name, if they name a type and say static only where they may.
fn named_base(file: bool, specs: &Seq<Word>) -> Option<Base>
    ensures { result ≡ (rules.saying file specs.now).names_base }
{
    if says_static(specs) && !file {
        None
    } else {
        base_of(specs)
    }
}
