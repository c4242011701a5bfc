//! A name in the place of another.

ghost use Rattle.std.specs.Prelude.{◌≡◌};
ghost use Rattle.std.specs.Result.{OnOk};
ghost use Rattle.swc_ecma_codegen_visit.specs.Changed.{with_idents};
ghost use Rattle.swc_ecma_codegen_mods.specs.Names.{renamed, spelled};

use std::alloc::Global;
use swc_ecma_codegen_tree::{Ident, Program};
use swc_ecma_codegen_visit::{ChangeIdent, Stop, change_idents};

/// `b` in the place of `a`.
#[derive(Drop)]
struct Rename {
    alloc: Global,
}

impl ChangeIdent for Rename {
    ghost old = { renamed };

    ghost new = { spelled };

    fn ident(&mut self, ident: &mut Ident) -> Result<(), Stop> {
        if ident.sym.as_str() == "a" {
            ident.sym = String::from_str(self.alloc, "b")?;
        }
        Ok(())
    }
}

/// Renames each `a` of a program to `b`, wherever it is bound, assigned or referred to:
/// `let a = 1; a = f(a);` becomes `let b = 1; b = f(b);`. `x.a` and `{ a: 1 }` stay, since there
/// `a` is the name of a property.
pub fn with_b_for_a(alloc: Global, program: &mut Program) -> Result<(), Stop>
    ensures { OnOk result (with_idents renamed program.old ≡ with_idents spelled program.new) }
{
    change_idents(alloc, program, &mut Rename { alloc })
}
