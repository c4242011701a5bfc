//! What `ecmafix` does with a tree before it is printed.

ghost use Rattle.std.specs.Prelude.{codes};
ghost use Rattle.std.specs.Str.{bytes_eq};
ghost use Rattle.swc_ecma_codegen_fix.specs.Mended.{IsFixed};

use std::alloc::Global;
use swc_ecma_codegen_fix::{Unmendable, fixed};
use swc_ecma_codegen_json::Tree;
use swc_ecma_codegen_runs::{Fault, Options, Tool, Words};

/// `ecmafix`, which puts in the parentheses that a tree lacks.
pub struct Ecmafix;

impl Words for Ecmafix {
    ghost usage_line = { codes "usage: ecmafix [options]\n" };

    ghost is_own = { λ word. bytes_eq word (codes "--fewest") };

    fn name() -> &'static str {
        "ecmafix"
    }

    fn own_options() -> &'static [&'static str] {
        &["--fewest"]
    }

    fn help() -> &'static str {
        "usage: ecmafix [options] < tree.json\n\nPrints the program that standard input has as JSON, with the parentheses that it lacks.\n\n  --minify            leave out blanks and line ends that aren't needed\n  --omit-last-semi    with --minify: leave out the last semicolon\n  --ascii-only        write names and strings in ASCII\n  --assert            write `assert`, and not `with`, before attributes of imports\n  --inline-script     write no string that ends an HTML script\n  --target VERSION    write literals for es3, es5, es2015 .. es2022, or esnext\n  --max-line N        with --minify: lines of at most N UTF-16 units, where they may end\n  --positions         tell standard error where what stands in the source was written\n  --any               print a program too that isn't well-formed, or that no parentheses mend\n  --fewest            take the parentheses of the tree away first\n  --help              this\n  --version           the version\n\nStatus 0: printed; 1: not printed, as a line to standard error says; 2: wrong words.\n"
    }

    fn version() -> &'static str {
        "ecmafix 1.0.0 (swc_ecma_codegen 0.154.4 in Rattle)\n"
    }

    fn usage_line() -> &'static str {
        "usage: ecmafix [options]\n"
    }

    fn is_own(word: &str) -> bool {
        word == "--fewest"
    }
}

impl Tool for Ecmafix {
    ghost prepared = { λ options p r. IsFixed options.fewest options.any p r };

    fn prepare(alloc: Global, options: Options, tree: Tree) -> Result<Tree, Fault> {
        match fixed(alloc, options.fewest, options.any, tree) {
            Ok(tree) => Ok(tree),
            Err(Unmendable::OutOfMemory) => Err(Fault::Memory),
            Err(Unmendable::NotADerivation) => Err(Fault::NotADerivation),
            // (JSON doesn't nest so deep)
            Err(Unmendable::TooDeep) => Err(Fault::BadTree),
        }
    }
}
