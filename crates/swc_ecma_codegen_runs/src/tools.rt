//! Programs that print a tree, by what they do with it before.

ghost use Rattle.std.specs.Prelude.{◌≡◌, ◌≢◌, ℕ, List, Bool, false, codes, Err, IfOk};
ghost use Rattle.swc_ecma_codegen_tree.specs.declared.links.AnyNode.{AnyNode};
ghost use Rattle.swc_ecma_codegen_tree.specs.declared.programs.Program.{Program};
ghost use Rattle.swc_ecma_codegen_runs.specs.declared.words.Options.{Options};

use crate::faults::Fault;
use crate::words::{Options, Words};
use std::alloc::Global;
use swc_ecma_codegen_json::Tree;

/// A program that prints a tree.
pub trait Tool: Words {
    /// What a program was, and is as it is printed, by what the words of a run ask for.
    ghost prepared: { Options → Program AnyNode → Program AnyNode → Type 0 };

    /// Makes of a tree what is printed of it.
    fn prepare(alloc: Global, options: Options, tree: Tree) -> Result<Tree, Fault>
        ensures prepared { IfOk result (λ r. prepared options tree.0 r.0) }
        ensures no_usage { result ≢ Err Fault.Usage };
}

/// `ecmagen`, which prints a tree as it is.
pub struct Ecmagen;

impl Words for Ecmagen {
    ghost usage_line = { codes "usage: ecmagen [options]\n" };

    ghost is_own = { λ word. false };

    fn name() -> &'static str {
        "ecmagen"
    }

    fn help() -> &'static str {
        "usage: ecmagen [options] < tree.json\n\nPrints the program that standard input has as JSON.\n\n  --minify            leave out blanks and line ends that aren't needed\n  --omit-last-semi    with --minify: leave out the last semicolon\n  --ascii-only        write names and strings in ASCII\n  --assert            write `assert`, and not `with`, before attributes of imports\n  --inline-script     write no string that ends an HTML script\n  --target VERSION    write literals for es3, es5, es2015 .. es2022, or esnext\n  --max-line N        with --minify: lines of at most N UTF-16 units, where they may end\n  --positions         tell standard error where what stands in the source was written\n  --any               print a program too that isn't well-formed\n  --help              this\n  --version           the version\n\nStatus 0: printed; 1: not printed, as a line to standard error says; 2: wrong words.\n"
    }

    fn version() -> &'static str {
        "ecmagen 1.0.0 (swc_ecma_codegen 0.154.4 in Rattle)\n"
    }

    fn usage_line() -> &'static str {
        "usage: ecmagen [options]\n"
    }

    fn is_own(_word: &str) -> bool {
        false
    }
}

impl Tool for Ecmagen {
    ghost prepared = { λ options p r. p ≡ r };

    fn prepare(_alloc: Global, _options: Options, tree: Tree) -> Result<Tree, Fault> {
        Ok(tree)
    }
}
