//! What a node looks like, where a place asks for more than a nonterminal (`Shape`).

ghost use Rattle.std.specs.Prelude.{◌≡◌};
ghost use Rattle.swc_ecma_codegen_syntax.specs.Shapes.{is_attribute, is_path, is_decorator, fits, attribute_if, lit_shape, path_if, member_shape, decorator_if, callee_shape, expr_shape, is_attribute_key, is_attribute_prop, is_attribute_entry, are_attributes, part_shape};
ghost use Rattle.swc_ecma_codegen_syntax.specs.Summary.{shape_in};

use crate::forms::Answers;
use crate::verdicts::Shape;
use swc_ecma_codegen_tree::{
    Callee, Expr, ExprPart, Lit, MemberProp, Prop, PropName, PropOrSpread,
};

impl Shape {
    /// Whether it is a string, or an object of import attributes.
    #[tactic(auto, unfolding(crate::specs::Shapes::is_attribute))]
    fn is_attribute(self) -> bool
        ensures { result ≡ is_attribute self }
    {
        matches!(self, Shape::Attribute)
    }

    /// Whether it is names with dots between.
    #[tactic(auto, unfolding(crate::specs::Shapes::is_path))]
    fn is_path(self) -> bool
        ensures { result ≡ is_path self }
    {
        matches!(self, Shape::Path)
    }

    /// Whether it may stand behind `@`.
    #[tactic(auto, unfolding(crate::specs::Shapes::is_decorator, crate::specs::Shapes::is_path))]
    fn is_decorator(self) -> bool
        ensures { result ≡ is_decorator self }
    {
        matches!(self, Shape::Decorator | Shape::Path)
    }

    /// Whether a node of the other shape stands where this one is asked for. Behind `@` a
    /// `Decorator` is asked for: `a.b`, `a.b(c)` and `(a)` stand there, and `a[b]` doesn't. Where
    /// `Shape::Decorator.fits(link.target().shape())` is false a link's expression needs a pair.
    #[tactic(auto, unfolding(crate::specs::Shapes::fits))]
    pub fn fits(self, other: Shape) -> bool
        ensures { result ≡ fits self other }
    {
        match self {
            Shape::Attribute => other.is_attribute(),
            Shape::Path => other.is_path(),
            Shape::Decorator => other.is_decorator(),
            Shape::Other => true,
        }
    }
}

/// What a literal looks like.
#[tactic(auto, unfolding(crate::specs::Shapes::lit_shape))]
fn lit_shape(lit: &Lit) -> Shape
    ensures { result ≡ lit_shape lit.now }
{
    match lit {
        Lit::Str(_) => Shape::Attribute,
        _ => Shape::Other,
    }
}

/// What a member looks like, by what its object does.
#[tactic(auto, unfolding(crate::specs::Shapes::member_shape, crate::specs::Shapes::path_if))]
fn member_shape<N: Answers>(object: Shape, prop: &MemberProp<N>) -> Shape
    ensures { result ≡ member_shape object prop.now }
{
    match prop {
        MemberProp::Computed(_) => Shape::Other,
        _ => {
            if object.is_path() {
                Shape::Path
            } else {
                Shape::Other
            }
        }
    }
}

/// What a call looks like.
#[tactic(auto, unfolding(crate::specs::Shapes::callee_shape, crate::specs::Shapes::decorator_if))]
fn callee_shape<N: Answers>(callee: &Callee<N>) -> Shape
    ensures { result ≡ callee_shape (shape_in N.answers) callee.now }
{
    match callee {
        Callee::Expr(link) => {
            if link.target().shape().is_path() {
                Shape::Decorator
            } else {
                Shape::Other
            }
        }
        _ => Shape::Other,
    }
}

/// What an expression looks like.
#[tactic(auto, unfolding(crate::specs::Shapes::expr_shape))]
pub(crate) fn expr_shape<N: Answers>(expr: &Expr<N>) -> Shape
    ensures { result ≡ expr_shape (shape_in N.answers) expr.now }
{
    match expr {
        Expr::Ident(_) => Shape::Path,
        Expr::Member(node) => member_shape(node.obj.target().shape(), &node.prop),
        Expr::Call(node) => callee_shape(&node.callee),
        Expr::Paren(_) => Shape::Decorator,
        Expr::Lit(node) => lit_shape(node),
        _ => Shape::Other,
    }
}

/// Whether it may be the key of an import attribute: a name or a string.
#[tactic(auto, unfolding(crate::specs::Shapes::is_attribute_key))]
fn is_attribute_key<N: Answers>(key: &PropName<N>) -> bool
    ensures { result ≡ is_attribute_key key.now }
{
    matches!(key, PropName::Ident(_) | PropName::Str(_))
}

/// Whether it is an import attribute.
#[tactic(auto, unfolding(crate::specs::Shapes::is_attribute_entry, crate::specs::Shapes::is_attribute_prop))]
fn is_attribute_entry<N: Answers>(entry: &PropOrSpread<N>) -> bool
    ensures { result ≡ is_attribute_entry (shape_in N.answers) entry.now }
{
    match entry {
        PropOrSpread::Prop(Prop::KeyValue(node)) => {
            is_attribute_key(&node.key) && node.value.target().shape().is_attribute()
        }
        _ => false,
    }
}

/// Whether each is one.
#[tactic(auto, unfolding(crate::specs::Shapes::are_attributes))]
fn are_attributes<N: Answers>(entries: &[PropOrSpread<N>]) -> bool
    ensures { result ≡ are_attributes (shape_in N.answers) entries.now }
{
    for entry in entries {
        if !is_attribute_entry(entry) {
            return false;
        }
    }
    true
}

/// What a part of an expression looks like.
#[tactic(auto, unfolding(crate::specs::Shapes::part_shape, crate::specs::Shapes::attribute_if))]
pub(crate) fn part_shape<N: Answers>(part: &ExprPart<N>) -> Shape
    ensures { result ≡ part_shape (shape_in N.answers) part.now }
{
    match part {
        ExprPart::ObjectLit(node) => {
            if are_attributes(&node.props) {
                Shape::Attribute
            } else {
                Shape::Other
            }
        }
        _ => Shape::Other,
    }
}
