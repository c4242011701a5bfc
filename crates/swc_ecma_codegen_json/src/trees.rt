//! Programs as serde reads them.

ghost use Rattle.std.specs.Prelude.{◌≡◌};

use crate::input::Input;
use crate::reading::{Make, Readable};
use crate::source::Form;
use crate::stmt_nodes::read_program;
use serde::{Deserialize, DeserializeOwned, Deserializer, Format};
use std::alloc::Global;
use swc_ecma_codegen_tree::{AnyNode, Program};

/// A program that serde reads, in any of its formats:
/// `let tree: Tree = serde_json::from_slice(alloc, bytes)?`.
pub struct Tree<N = AnyNode>(pub Program<N>);

impl<N: Drop> Tree<N> {
    /// The program.
    pub fn into_program(self) -> Program<N>
        ensures { result ≡ self.0 }
    {
        let Tree(program) = self;
        program
    }
}

/// By hand, since each crate that lets a tree go would prove again what `derive` makes.
impl<N: Drop> Drop for Tree<N> {
    fn drop(self) {
        let Tree(_) = self;
    }
}

impl<N: Readable> DeserializeOwned for Tree<N> {
    fn deserialize_owned<F: Format>(
        alloc: Global,
        from: &mut Deserializer<'_, '_, F>,
    ) -> Result<Tree<N>, F::Error> {
        tree_in(alloc, from, Form::Whole)
    }
}

/// The program that is read in a form, or why there is none.
fn tree_in<N: Readable, F: Format>(
    alloc: Global,
    from: &mut Deserializer<'_, '_, F>,
    form: Form,
) -> Result<Tree<N>, F::Error> {
    let Ok(make) = N::maker(alloc) else {
        return Err(from.no_memory());
    };
    read_tree(&mut Input::new(alloc, from, form), &make)
}

/// The program that is read, or why there is none. In a function that is lent the input, since the
/// check doesn't follow the loan of a local that holds a reference to where any `S: Source` is
/// taken.
fn read_tree<'a, 'de, 's, N: Drop, F: Format, M: Make<N>>(
    input: &mut Input<'a, 'de, 's, F>,
    make: &M,
) -> Result<Tree<N>, F::Error> {
    match read_program(input, make) {
        Ok(program) if !input.has_failed() => Ok(Tree(program)),
        _ => Err(input.error()),
    }
}

impl<'de, N: Readable> Deserialize<'de> for Tree<N> {
    fn deserialize<F: Format>(
        alloc: Global,
        from: &mut Deserializer<'de, '_, F>,
    ) -> Result<Tree<N>, F::Error> {
        Tree::<N>::deserialize_owned(alloc, from)
    }
}

/// What serde reads in the short form: a program, as `Short<Tree>`, or its flat form, as
/// `Short<FlatTree<8000>>`.
///
/// A member may be left out that has a default: a span that is 0 to 0, `null`, `false`, or an empty
/// list. So the name `a` is `{"Ident":{"sym":"a"}}`. A member that its object doesn't have is an
/// error, and isn't passed over: it may be a misspelt one.
pub struct Short<T>(pub T);

impl<T: Drop> Short<T> {
    /// What was read.
    pub fn into_inner(self) -> T
        ensures { result ≡ self.0 }
    {
        let Short(inner) = self;
        inner
    }
}

/// By hand, as that of [`Tree`].
impl<T: Drop> Drop for Short<T> {
    fn drop(self) {
        let Short(_) = self;
    }
}

impl<N: Readable> DeserializeOwned for Short<Tree<N>> {
    fn deserialize_owned<F: Format>(
        alloc: Global,
        from: &mut Deserializer<'_, '_, F>,
    ) -> Result<Short<Tree<N>>, F::Error> {
        match tree_in(alloc, from, Form::Short) {
            Ok(tree) => Ok(Short(tree)),
            Err(error) => Err(error),
        }
    }
}

impl<'de, N: Readable> Deserialize<'de> for Short<Tree<N>> {
    fn deserialize<F: Format>(
        alloc: Global,
        from: &mut Deserializer<'de, '_, F>,
    ) -> Result<Short<Tree<N>>, F::Error> {
        Short::<Tree<N>>::deserialize_owned(alloc, from)
    }
}
