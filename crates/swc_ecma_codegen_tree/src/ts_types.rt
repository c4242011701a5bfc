//! Types of TypeScript.

use crate::exprs::TplElement;
use crate::idents::{BindingIdent, Ident, IdentName};
use crate::links::AnyNode;
use crate::lits::{BigInt, Bool, Number, Str};
use crate::pats::{ArrayPat, ObjectPat, RestPat};
use crate::sorts::{
    PatBox, TsEntityNameBox, TsFnParamBox, TsTypeAnnBox, TsTypeBox, TsTypeParamDeclBox,
    TsTypeParamInstantiationBox,
};
use crate::ts_members::TsTypeElement;
use swc_ecma_codegen_common::Span;

/// `: A` of `let a: A`. TypeScript, Everyday Types.
#[derive(Drop)]
pub struct TsTypeAnn<N = AnyNode> {
    pub span: Span,
    /// `A` of `let a: A`.
    pub type_ann: TsType<N>,
}

/// `A<B>` or `string`: any type. TypeScript, Everyday Types.
#[derive(Drop)]
pub enum TsType<N = AnyNode> {
    /// `string`
    TsKeywordType(TsKeywordType),
    /// `this`
    TsThisType(TsThisType),
    /// `(a: A) => B`
    TsFnOrConstructorType(Box<TsFnOrConstructorType<N>>),
    /// `A<B>`
    TsTypeRef(TsTypeRef<N>),
    /// `typeof a`
    TsTypeQuery(Box<TsTypeQuery<N>>),
    /// `{a: B}`
    TsTypeLit(TsTypeLit<N>),
    /// `A[]`
    TsArrayType(TsArrayType<N>),
    /// `[A, B]`
    TsTupleType(TsTupleType<N>),
    /// `B?` of `[A, B?]`.
    TsOptionalType(TsOptionalType<N>),
    /// `...B[]` of `[A, ...B[]]`.
    TsRestType(TsRestType<N>),
    /// `A | B`
    TsUnionOrIntersectionType(TsUnionOrIntersectionType<N>),
    /// `A extends B ? C : D`
    TsConditionalType(TsConditionalType<N>),
    /// `infer B` of `A extends (infer B)[] ? B : C`.
    TsInferType(Box<TsInferType<N>>),
    /// `(A)`
    TsParenthesizedType(TsParenthesizedType<N>),
    /// `keyof T`
    TsTypeOperator(TsTypeOperator<N>),
    /// `A["b"]`
    TsIndexedAccessType(TsIndexedAccessType<N>),
    /// `{[A in B]: C}`
    TsMappedType(Box<TsMappedType<N>>),
    /// `"a"`
    TsLitType(Box<TsLitType<N>>),
    /// `a is B` of `(a): a is B`.
    TsTypePredicate(Box<TsTypePredicate<N>>),
    /// `import("a").B`
    TsImportType(Box<TsImportType<N>>),
}

/// `string`: a type that is a keyword. TypeScript, Everyday Types.
#[derive(Drop)]
pub struct TsKeywordType {
    pub span: Span,
    /// Which keyword it is, such as `string` or `any`.
    pub kind: TsKeywordTypeKind,
}

/// `this` of `a(): this`. TypeScript, Classes.
#[derive(Drop)]
pub struct TsThisType {
    pub span: Span,
}

/// `(a: A) => B` or `new (a: A) => B`. TypeScript, Functions.
#[derive(Drop)]
pub enum TsFnOrConstructorType<N = AnyNode> {
    /// `(a: A) => B`
    TsFnType(TsFnType<N>),
    /// `new (a: A) => B`
    TsConstructorType(TsConstructorType<N>),
}

/// `new <T>(a: T) => B`. TypeScript, Functions.
#[derive(Drop)]
pub struct TsConstructorType<N = AnyNode> {
    pub span: Span,
    /// `a: T` of `new <T>(a: T) => B`, in order.
    pub params: Vec<TsFnParamBox<N>>,
    /// `<T>` of `new <T>(a: T) => B`; None where there are none.
    pub type_params: Option<TsTypeParamDeclBox<N>>,
    /// `B` of `new <T>(a: T) => B`.
    pub type_ann: TsTypeAnnBox<N>,
    /// Whether it stands after `abstract`, `abstract new () => A`.
    pub is_abstract: bool,
}

/// `A<B>`: a type called by its name. TypeScript, Generics.
#[derive(Drop)]
pub struct TsTypeRef<N = AnyNode> {
    pub span: Span,
    /// `A` of `A<B>`.
    pub type_name: TsEntityNameBox<N>,
    /// `<B>` of `A<B>`; None where no type arguments are written, `A`.
    pub type_params: Option<TsTypeParamInstantiationBox<N>>,
}

/// `typeof a.b`. TypeScript, Typeof Type Operator.
#[derive(Drop)]
pub struct TsTypeQuery<N = AnyNode> {
    pub span: Span,
    /// `a.b` of `typeof a.b`.
    pub expr_name: TsTypeQueryExpr<N>,
    /// `<B>` of `typeof a<B>`; None where no type arguments are written.
    pub type_args: Option<TsTypeParamInstantiationBox<N>>,
}

/// `{a: B; c(): D}`. TypeScript, Object Types.
#[derive(Drop)]
pub struct TsTypeLit<N = AnyNode> {
    pub span: Span,
    /// `a: B` and `c(): D` of `{a: B; c(): D}`, in order.
    pub members: Vec<TsTypeElement<N>>,
}

/// `A[]`. TypeScript, Object Types.
#[derive(Drop)]
pub struct TsArrayType<N = AnyNode> {
    pub span: Span,
    /// `A` of `A[]`.
    pub elem_type: TsTypeBox<N>,
}

/// `[A, b: B]`. TypeScript, Object Types.
#[derive(Drop)]
pub struct TsTupleType<N = AnyNode> {
    pub span: Span,
    /// `A` and `b: B` of `[A, b: B]`, in order.
    pub elem_types: Vec<TsTupleElement<N>>,
}

/// `B?` of `[A, B?]`. TypeScript, Object Types.
#[derive(Drop)]
pub struct TsOptionalType<N = AnyNode> {
    pub span: Span,
    /// `B` of `[A, B?]`.
    pub type_ann: TsTypeBox<N>,
}

/// `...B[]` of `[A, ...B[]]`. TypeScript, Object Types.
#[derive(Drop)]
pub struct TsRestType<N = AnyNode> {
    pub span: Span,
    /// `B[]` of `[A, ...B[]]`.
    pub type_ann: TsTypeBox<N>,
}

/// `A | B` or `A & B`. TypeScript, Everyday Types.
#[derive(Drop)]
pub enum TsUnionOrIntersectionType<N = AnyNode> {
    /// `A | B`
    TsUnionType(TsUnionType<N>),
    /// `A & B`
    TsIntersectionType(TsIntersectionType<N>),
}

/// `A | B`. TypeScript, Everyday Types.
#[derive(Drop)]
pub struct TsUnionType<N = AnyNode> {
    pub span: Span,
    /// `A` and `B` of `A | B`, in order.
    pub types: Vec<TsTypeBox<N>>,
}

/// `A & B`. TypeScript, Object Types.
#[derive(Drop)]
pub struct TsIntersectionType<N = AnyNode> {
    pub span: Span,
    /// `A` and `B` of `A & B`, in order.
    pub types: Vec<TsTypeBox<N>>,
}

/// `A extends B ? C : D`. TypeScript, Conditional Types.
#[derive(Drop)]
pub struct TsConditionalType<N = AnyNode> {
    pub span: Span,
    /// `A` of `A extends B ? C : D`.
    pub check_type: TsTypeBox<N>,
    /// `B` of `A extends B ? C : D`.
    pub extends_type: TsTypeBox<N>,
    /// `C` of `A extends B ? C : D`.
    pub true_type: TsTypeBox<N>,
    /// `D` of `A extends B ? C : D`.
    pub false_type: TsTypeBox<N>,
}

/// `infer B` of `A extends (infer B)[] ? B : C`. TypeScript, Conditional Types.
#[derive(Drop)]
pub struct TsInferType<N = AnyNode> {
    pub span: Span,
    /// `B` of `infer B`, or `B extends C` of `infer B extends C`.
    pub type_param: TsTypeParam<N>,
}

/// `(A | B)` of `(A | B)[]`. TypeScript, Everyday Types.
#[derive(Drop)]
pub struct TsParenthesizedType<N = AnyNode> {
    pub span: Span,
    /// `A | B` of `(A | B)`.
    pub type_ann: TsTypeBox<N>,
}

/// `keyof T`. TypeScript, Keyof Type Operator.
#[derive(Drop)]
pub struct TsTypeOperator<N = AnyNode> {
    pub span: Span,
    /// `keyof` of `keyof T`.
    pub op: TsTypeOperatorOp,
    /// `T` of `keyof T`.
    pub type_ann: TsTypeBox<N>,
}

/// `A["b"]`. TypeScript, Indexed Access Types.
#[derive(Drop)]
pub struct TsIndexedAccessType<N = AnyNode> {
    pub span: Span,
    /// `A` of `A["b"]`.
    pub obj_type: TsTypeBox<N>,
    /// `"b"` of `A["b"]`.
    pub index_type: TsTypeBox<N>,
}

/// `{readonly [A in B as C]?: D}`. TypeScript, Mapped Types.
#[derive(Drop)]
pub struct TsMappedType<N = AnyNode> {
    pub span: Span,
    /// `readonly` of `{readonly [A in B]: C}`; None where no `readonly` is written.
    pub readonly: Option<TruePlusMinus>,
    /// `A in B` of `{[A in B]: C}`, with `B` as the constraint.
    pub type_param: TsTypeParam<N>,
    /// `C` of `{[A in B as C]: D}`; None where there is no `as`.
    pub name_type: Option<TsTypeBox<N>>,
    /// `?` of `{[A in B]?: C}`; None where no `?` is written.
    pub optional: Option<TruePlusMinus>,
    /// `C` of `{[A in B]: C}`; None where no type is written, `{[A in B]}`.
    pub type_ann: Option<TsTypeBox<N>>,
}

/// `"a"` of `let a: "a"`. TypeScript, Everyday Types.
#[derive(Drop)]
pub struct TsLitType<N = AnyNode> {
    pub span: Span,
    /// The literal itself, `"a"` of `let a: "a"`.
    pub lit: TsLit<N>,
}

/// `a is B` of `(a): a is B`. TypeScript, Narrowing.
#[derive(Drop)]
pub struct TsTypePredicate<N = AnyNode> {
    pub span: Span,
    /// Whether it stands after `asserts`, `asserts a is B`.
    pub asserts: bool,
    /// `a` of `a is B`.
    pub param_name: TsThisTypeOrIdent,
    /// `B` of `a is B`; None where there is no `is`, `asserts a`.
    pub type_ann: Option<TsTypeAnnBox<N>>,
}

/// `import("a").B<C>`. TypeScript, Modules.
#[derive(Drop)]
pub struct TsImportType<N = AnyNode> {
    pub span: Span,
    /// `"a"` of `import("a").B<C>`.
    pub arg: Str,
    /// `B` of `import("a").B<C>`; None where no name follows, `import("a")`.
    pub qualifier: Option<TsEntityNameBox<N>>,
    /// `<C>` of `import("a").B<C>`; None where no type arguments are written.
    pub type_args: Option<TsTypeParamInstantiationBox<N>>,
}

/// `any`, `string`, `never`: which keyword a type is. TypeScript, Everyday Types.
#[derive(Clone, Copy, Debug, PartialEq, Eq)]
pub enum TsKeywordTypeKind {
    /// `any`
    TsAnyKeyword,
    /// `unknown`
    TsUnknownKeyword,
    /// `number`
    TsNumberKeyword,
    /// `object`
    TsObjectKeyword,
    /// `boolean`
    TsBooleanKeyword,
    /// `bigint`
    TsBigIntKeyword,
    /// `string`
    TsStringKeyword,
    /// `symbol`
    TsSymbolKeyword,
    /// `void`
    TsVoidKeyword,
    /// `undefined`
    TsUndefinedKeyword,
    /// `null`
    TsNullKeyword,
    /// `never`
    TsNeverKeyword,
    /// `intrinsic` of `type Uppercase<S extends string> = intrinsic`.
    TsIntrinsicKeyword,
}

/// `keyof` of `keyof T`. TypeScript, Keyof Type Operator.
#[derive(Clone, Copy, Debug, PartialEq, Eq)]
pub enum TsTypeOperatorOp {
    /// `keyof` of `keyof T`.
    KeyOf,
    /// `unique` of `unique symbol`.
    Unique,
    /// `readonly` of `readonly A[]`.
    ReadOnly,
}

/// `?`, `+?` or `-?` of `{[A in B]-?: C}`, and so for `readonly`. TypeScript, Mapped Types.
#[derive(Clone, Copy, Debug, PartialEq, Eq)]
pub enum TruePlusMinus {
    /// The bare word or sign, as `?` of `{[A in B]?: C}`.
    True,
    /// With a plus, as `+?` of `{[A in B]+?: C}`.
    Plus,
    /// With a minus, as `-?` of `{[A in B]-?: C}`.
    Minus,
}

/// `a` of `a is B`, or `this` of `this is B`. TypeScript, Narrowing.
#[derive(Drop)]
pub enum TsThisTypeOrIdent {
    /// `this` of `this is B`.
    TsThisType(TsThisType),
    /// `a` of `a is B`.
    Ident(Ident),
}

/// `1` of `let a: 1`. TypeScript, Everyday Types.
#[derive(Drop)]
pub enum TsLit<N = AnyNode> {
    /// `1`
    Number(Number),
    /// `"a"`
    Str(Str),
    /// `true`
    Bool(Bool),
    /// `1n`
    BigInt(BigInt),
    /// A template, as `a${B}c` between back quotes.
    Tpl(TsTplLitType<N>),
}

/// `a${B}c` between back quotes, as a type. TypeScript, Template Literal Types.
#[derive(Drop)]
pub struct TsTplLitType<N = AnyNode> {
    pub span: Span,
    /// `B` and `D` of the template `a${B}c${D}e`, in order.
    pub types: Vec<TsTypeBox<N>>,
    /// `a`, `c` and `e` of the template `a${B}c${D}e`, one more than the types.
    pub quasis: Vec<TplElement>,
}

/// `A` or `b: B` of `[A, b: B]`. TypeScript, Object Types.
#[derive(Drop)]
pub struct TsTupleElement<N = AnyNode> {
    pub span: Span,
    /// `b` of `[b: B]`; None where only the type is written, `[B]`.
    pub label: Option<PatBox<N>>,
    /// `B` of `[b: B]`.
    pub ty: TsTypeBox<N>,
}

/// `a.b` of `typeof a.b`. TypeScript, Typeof Type Operator.
#[derive(Drop)]
pub enum TsTypeQueryExpr<N = AnyNode> {
    /// `a.b` of `typeof a.b`.
    TsEntityName(TsEntityNameBox<N>),
    /// `import("a")` of `typeof import("a")`.
    Import(TsImportType<N>),
}

/// `A` or `a.B`: the name of a type. TypeScript, Namespaces.
#[derive(Drop)]
pub enum TsEntityName<N = AnyNode> {
    /// `a.B`
    TsQualifiedName(TsQualifiedName<N>),
    /// `A`
    Ident(Ident),
}

/// `a.b.C`: a name with dots in a type. TypeScript, Namespaces.
#[derive(Drop)]
pub struct TsQualifiedName<N = AnyNode> {
    pub span: Span,
    /// `a.b` of `a.b.C`.
    pub left: TsEntityNameBox<N>,
    /// `C` of `a.b.C`.
    pub right: IdentName,
}

/// `<T>(a: T) => B`. TypeScript, Functions.
#[derive(Drop)]
pub struct TsFnType<N = AnyNode> {
    pub span: Span,
    /// `a: T` of `<T>(a: T) => B`, in order.
    pub params: Vec<TsFnParamBox<N>>,
    /// `<T>` of `<T>(a: T) => B`; None where no type parameters are written.
    pub type_params: Option<TsTypeParamDeclBox<N>>,
    /// `B` of `<T>(a: T) => B`.
    pub type_ann: TsTypeAnnBox<N>,
}

/// `a: A` of `(a: A) => B`. TypeScript, Functions.
#[derive(Drop)]
pub enum TsFnParam<N = AnyNode> {
    /// `a: A` of `(a: A) => B`.
    Ident(BindingIdent<N>),
    /// `[a]: A` of `([a]: A) => B`.
    Array(ArrayPat<N>),
    /// `...a: A` of `(...a: A) => B`.
    Rest(RestPat<N>),
    /// `{a}: A` of `({a}: A) => B`.
    Object(ObjectPat<N>),
}

/// `<A, B extends C>` of `type D<A, B extends C> = A`. TypeScript, Generics.
#[derive(Drop)]
pub struct TsTypeParamDecl<N = AnyNode> {
    pub span: Span,
    /// `A` and `B extends C` of `<A, B extends C>`, in order.
    pub params: Vec<TsTypeParam<N>>,
}

/// `<A, B>` of `f<A, B>()`. TypeScript, Generics.
#[derive(Drop)]
pub struct TsTypeParamInstantiation<N = AnyNode> {
    pub span: Span,
    /// `A` and `B` of `<A, B>`, in order.
    pub params: Vec<TsTypeBox<N>>,
}

/// `A extends B = C` of `type D<A extends B = C> = A`. TypeScript, Generics.
#[derive(Drop)]
pub struct TsTypeParam<N = AnyNode> {
    pub span: Span,
    /// `A` of `<A extends B = C>`.
    pub name: Ident,
    /// Whether it stands after `in`, `<in T>`.
    pub is_in: bool,
    /// Whether it stands after `out`, `<out T>`.
    pub is_out: bool,
    /// Whether it stands after `const`, `<const T>`.
    pub is_const: bool,
    /// `B` of `<A extends B = C>`; None where there is no `extends`.
    pub constraint: Option<TsTypeBox<N>>,
    /// `C` of `<A extends B = C>`; None where there is no `=`.
    pub default: Option<TsTypeBox<N>>,
}
