//! Catalogues of programs: what a document says of the program that it wants. Most tell their programs by name.

ghost use Rattle.std.specs.Prelude.{◌≡◌, IfOk};

use crate::explain::Remark;
use crate::tree::{has, text_at, value_at};
use bsp_model::OutOfMemory;
use bsp_step::Program;
use std::alloc::Global;
use std::marker::PhantomData;
use toml::Table;

/// A catalogue of programs: the keys of its own that a document has beside `limit`, `g`, `l`, `memory`, `args` and `batches`, and which program
/// they say. The type is the catalogue; it has no values.
///
/// The methods are asked in the order of the faults, of which a document has the first:
///
/// - J2: a required key is missing;
/// - J3: a value has the wrong shape;
/// - J4: a key is neither the catalogue's nor a common one;
/// - J5: the keys say no program;
/// - J6: no run may start with the input;
/// - J7: a number is negative.
///
/// A program is made where there is no fault.
pub trait Catalogue {
    ghost use Rattle.std.specs.Prelude.{true, is_some, Some};
    ghost use Rattle.toml.specs.View.{table_view};
    ghost use Rattle.bsp_engine.specs.Catalogue.{Meaning, ReadsOwnKeys};
    ghost use Rattle.bsp_engine.specs.Keys.{HasKeysApart};

    /// What the documents name.
    type Program: Program + Drop;

    // What the keys mean, over the tree of a document.
    ghost meaning: { Meaning Self.Program };

    /// Whether the catalogue reads this key.
    fn is_key(key: &str) -> bool
        ensures { result ≡ meaning.is_key key.now };

    /// The key of the catalogue's own that is named to the user where its keys have the fault J2, J3, J5 or J7.
    fn key_at_fault(document: &Table) -> &'static str
        ensures { meaning.is_key result.now ≡ true };

    /// Says behind the key that is named where in its value the fault J3 is, and why.
    fn tell_misfit(_document: &Table, remark: &mut Remark) {
        remark.add(": a value of another shape");
    }

    /// The names of the programs, in words, for whoever wrote another name (J5); empty where programs have no names.
    fn names() -> &'static str {
        ""
    }

    /// Whether no key that the catalogue needs is absent (else J2).
    fn has_required_keys(document: &Table) -> bool
        ensures { result ≡ meaning.has_required_keys (table_view document.now) };

    /// Whether each of the catalogue's keys that is there has a value of its shape (else J3).
    fn has_right_shapes(document: &Table) -> bool
        ensures { result ≡ meaning.has_right_shapes (table_view document.now) };

    /// Whether the keys say a program (else J5).
    fn names_program(document: &Table) -> bool
        ensures { result ≡ is_some (meaning.program_of (table_view document.now)) };

    /// Whether an integer in the values of the catalogue's keys is negative (then J7).
    fn has_negative_word(document: &Table) -> bool
        ensures { result ≡ meaning.has_negative_word (table_view document.now) };

    fn program(alloc: Global, document: &Table) -> Result<Self::Program, OutOfMemory>
        requires { is_some (meaning.program_of (table_view document.now)) ≡ true }
        ensures { IfOk result (λ p. meaning.program_of (table_view document.now) ≡ Some p) };

    // All of it depends on the values at the catalogue's own keys alone.
    ghost reads_own_keys: { ReadsOwnKeys meaning };

    // They are other keys than those that every document may have.
    ghost keys_apart: { HasKeysApart meaning };
}

/// Programs by name. A document gives the name as a string at its key `program`; see `Named`.
pub trait ByName {
    ghost use Rattle.std.specs.Prelude.{ℕ, List, Option};

    type Program: Program + Drop;

    // The program with a name.
    ghost named: { List ℕ → Option Self.Program };

    /// The names of all programs, in words, for whoever wrote another name.
    fn names() -> &'static str;

    /// The program with this name; where no program has it, a document with it is J5.
    fn by_name(name: &str) -> Option<Self::Program>
        ensures { result ≡ named name.now };
}

/// The catalogue of the programs of `N`: it reads the key `program`, which is required, and a string.
pub struct Named<N>(PhantomData<N>);

impl<N: ByName> Catalogue for Named<N> {
    ghost use Rattle.bsp_engine.specs.Naming.{meaning_by_name, meaning_by_name-keys_apart, meaning_by_name-reads_own_keys};

    type Program = N::Program;

    ghost meaning = { meaning_by_name N.named };

    ghost reads_own_keys = { meaning_by_name-reads_own_keys N.named };

    ghost keys_apart = { meaning_by_name-keys_apart N.named };

    fn is_key(key: &str) -> bool {
        key == "program"
    }

    fn key_at_fault(_document: &Table) -> &'static str {
        "program"
    }

    fn names() -> &'static str {
        N::names()
    }

    fn has_required_keys(document: &Table) -> bool {
        has(document, "program")
    }

    fn has_right_shapes(document: &Table) -> bool {
        match value_at(document, "program") {
            Some(value) => value.is_str(),
            None => true,
        }
    }

    fn names_program(document: &Table) -> bool {
        match text_at(document, "program") {
            Some(name) => N::by_name(name).is_some(),
            None => false,
        }
    }

    fn has_negative_word(_document: &Table) -> bool {
        false
    }

    fn program(_alloc: Global, document: &Table) -> Result<N::Program, OutOfMemory> {
        let name = text_at(document, "program").unwrap();
        Ok(N::by_name(name).unwrap())
    }
}
