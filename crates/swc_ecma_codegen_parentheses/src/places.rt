//! Where a node stands, as far as its parentheses depend on it.

use swc_ecma_codegen_common::BinaryOp;
use swc_ecma_codegen_syntax::{Beginning, Lookahead, Nonterminal, Parameters};

/// Where a node stands.
#[derive(Clone, Copy)]
pub(crate) struct Place {
    /// The nonterminal that stands there, of an expression.
    pub(crate) nonterminal: Nonterminal,
    /// `in` is an operator there.
    pub(crate) has_in: bool,
    /// The operator `<` stands right behind.
    pub(crate) before_less: bool,
    /// The operator `&` or `|` stands right behind, which goes on with a type: `a as T | b`.
    pub(crate) before_type_operator: bool,
    /// `else` stands right behind.
    pub(crate) before_else: bool,
    /// What the text that the node begins may not begin with.
    pub(crate) lookahead: Option<Lookahead>,
    /// It begins so.
    pub(crate) is_restricted: bool,
    /// The node is called, or has a property, so that `new A()` keeps its `()`.
    pub(crate) is_called: bool,
    /// `new` calls it with `()`. Both `()` of `new new A()()` go where it is minified.
    pub(crate) is_called_by_empty_new: bool,
    /// What stands there isn't of the shape that is asked for, as `a + b` of `@(a + b) class C {}`.
    pub(crate) has_other_shape: bool,
    /// The emission may be one that minifies.
    pub(crate) may_minify: bool,
    /// It is one for sure.
    pub(crate) must_minify: bool,
}

impl Place {
    /// That of a program, whatever the settings are.
    pub(crate) fn of_program() -> Place {
        Place {
            nonterminal: Nonterminal::Expression,
            has_in: true,
            before_less: false,
            before_type_operator: false,
            before_else: false,
            lookahead: None,
            is_restricted: false,
            is_called: false,
            is_called_by_empty_new: false,
            has_other_shape: false,
            may_minify: true,
            must_minify: false,
        }
    }

    /// That of a nonterminal with its parameters.
    pub(crate) fn of(nonterminal: Nonterminal, parameters: Parameters) -> Place {
        Place {
            nonterminal,
            has_in: parameters.has_in,
            before_less: parameters.before_less,
            before_type_operator: false,
            before_else: parameters.before_else,
            lookahead: None,
            is_restricted: false,
            is_called: false,
            is_called_by_empty_new: false,
            has_other_shape: false,
            may_minify: parameters.minify,
            must_minify: parameters.minify,
        }
    }

    /// The parameters of an expression that stands there, as far as its parentheses depend on them.
    pub(crate) fn parameters(self) -> Parameters {
        Parameters {
            has_in: self.has_in,
            before_less: self.before_less,
            ..Parameters::script()
        }
    }

    /// That of a part that stands as free as the whole.
    pub(crate) fn here(self, nonterminal: Nonterminal) -> Place {
        Place {
            nonterminal,
            lookahead: None,
            is_restricted: false,
            is_called: false,
            is_called_by_empty_new: false,
            has_other_shape: false,
            ..self
        }
    }

    /// That of a part that ends the whole, with `[+In]`.
    pub(crate) fn to_end(self, nonterminal: Nonterminal) -> Place {
        Place {
            has_in: true,
            ..self.here(nonterminal)
        }
    }

    /// That of a part with `[+In]` that something stands behind, as between brackets.
    pub(crate) fn bracketed(self, nonterminal: Nonterminal) -> Place {
        Place {
            before_less: false,
            before_type_operator: false,
            ..self.to_end(nonterminal)
        }
    }

    /// That of a part before an operator.
    pub(crate) fn before_operator(self, op: BinaryOp) -> Place {
        Place {
            before_less: matches!(op, BinaryOp::Lt),
            before_type_operator: matches!(op, BinaryOp::BitAnd | BinaryOp::BitOr),
            ..self
        }
    }

    /// That of a statement, by whether `else` stands behind, or behind the whole.
    pub(crate) fn before_else(self, before_else: bool) -> Place {
        Place {
            before_else: before_else || self.before_else,
            ..self
        }
    }

    /// The same of what is called, or has a property.
    pub(crate) fn callee(self) -> Place {
        Place {
            is_called: true,
            ..self
        }
    }

    /// The same of what `new` calls with `()`, which go where it is minified, or with others.
    pub(crate) fn called_by_new(self, empty: bool) -> Place {
        Place {
            is_called_by_empty_new: empty,
            ..self
        }
    }

    /// The same of a part that begins what stands in `whole`.
    pub(crate) fn beginning(self, whole: Place) -> Place {
        Place {
            lookahead: whole.lookahead,
            is_restricted: whole.is_restricted,
            ..self
        }
    }

    /// The same of what a lookahead restriction is put on, by what it begins with.
    pub(crate) fn restricted(self, lookahead: Lookahead, begins: Beginning) -> Place {
        Place {
            lookahead: Some(lookahead),
            is_restricted: lookahead.excludes(begins),
            ..self
        }
    }

    /// The same of a part that begins what stands there, where only this part tells what that
    /// begins with.
    pub(crate) fn told(self, begins: Beginning) -> Place {
        match self.lookahead {
            Some(lookahead) => self.restricted(lookahead, begins),
            None => self,
        }
    }

    /// That of what stands behind it in a list.
    pub(crate) fn behind_first(self) -> Place {
        Place {
            lookahead: None,
            is_restricted: false,
            ..self
        }
    }

    /// That of a statement of a list.
    pub(crate) fn listed(self) -> Place {
        Place {
            before_else: false,
            ..self.bracketed(Nonterminal::Expression)
        }
    }

    /// That of what stands first in the head of a loop, with `[~In]`.
    pub(crate) fn without_in(self) -> Place {
        Place {
            has_in: false,
            ..self.bracketed(Nonterminal::Expression)
        }
    }

    /// That of a decorator, by whether it is of the shape that stands behind `@`.
    pub(crate) fn behind_at(self, is_of_shape: bool) -> Place {
        Place {
            has_other_shape: !is_of_shape,
            ..self.bracketed(Nonterminal::LeftHandSideExpression)
        }
    }

    /// That of what stands in new parentheses round what stands here.
    pub(crate) fn enclosed(self) -> Place {
        self.bracketed(Nonterminal::Expression)
    }
}
