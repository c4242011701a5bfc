//! What stands where in a tree.

/// What a link may have to hold, by the place that it has in the node above.
#[derive(Clone, Copy)]
pub enum Role {
    Expression,
    /// What is called, or has a property: `new A()` keeps its parentheses there, as in `new A().b`.
    Callee,
    Statement,
    MemberExpression,
    /// A member as it stands in an optional chain, and whether `?.` stands before its property:
    /// true for `a?.b`, false for `.c` of `a?.b.c`.
    ChainMember(bool),
    /// A call as it stands in an optional chain, and whether `?.` stands before its arguments: true
    /// for `a?.(b)`, false for `(c)` of `a?.b(c)`.
    ChainCall(bool),
    AssignmentTarget,
    /// `[a]` of `[a] = b`, and each parameter of an arrow function.
    Pattern,
    /// A pattern that is a name alone: round it as the only parameter of an arrow function
    /// parentheses may be left out.
    PlainParameter,
    /// `a` of `{ a: b }`.
    PropertyName,
    /// `{ a }`.
    ObjectLiteral,
    /// `() {}` of `function f() {}`, all but the words before it and the name.
    Function,
    /// `async function*` of `async function* f() {}`.
    FunctionHead,
    /// `async *` of `{ async *f() {} }`.
    MethodHead,
    /// `{ a; }`.
    Block,
    /// `let a = b;` or `function f() {}`.
    Declaration,
    /// `let a = b`, without its semicolon.
    VariableDeclaration,
    /// `a${b}c` between back quotes.
    Template,
    /// `a${b}c` between back quotes, after a tag.
    TaggedTemplate,
    /// `@a` of `@a class B {}`.
    ClassHead,
    /// `abstract class` of `@a abstract class B {}`.
    ClassWord,
    /// `extends B { c; }` of `class A extends B { c; }`, all but the words before it and the name.
    ClassTail,
    /// `a;` of `class B { a; }`.
    Member,
    /// `@a` of `class B { @a c() {} }`.
    MethodDecorators,
    /// `() {}` of `class B { @a c() {} }`: the function of a method, whose decorators stand
    /// elsewhere.
    MethodTail,
    /// `() {}` of `class B { get a() {} }`: the same of a getter or a setter, which is neither
    /// async nor a generator.
    AccessorTail,
    /// `(a, b)` of `class B { c = (a, b); }`: an expression, and a sequence in parentheses.
    FieldValue,
    /// `import a from "b";` or `export { a };`.
    ModuleDeclaration,
    /// `@a` of `@a export class B {}`: what of a declaration stands before the word.
    ExportedHead,
    /// `class B {}` of `@a export class B {}`, `let a;` of `export let a;`.
    ExportedTail,
    /// `<a />` or `<></>`: an expression, or the value of an attribute.
    Element,
    /// `<b />` of `<a><b /></a>`: the same as a child, right behind what is before it.
    Child,
    /// `a.b` of `<a.b.c />`.
    TagObject,
    /// `A<B>` of `(A<B>)[]`: a type.
    AnyType,
    /// `A` of `let a: A`: a type behind its colon, or behind what stands for one.
    Annotation,
    /// `<A, B>` of `f<A, B>()`.
    TypeArguments,
    /// `<A, B extends C>` of `class D<A, B extends C> {}`.
    TypeParameters,
    /// `a.B` of `let c: a.B`: the name of a type.
    EntityName,
    /// `a: B` of `let c: (a: B) => C`: a parameter of a type.
    SignatureParameter,
    /// `{ b: C; }` of `interface A { b: C; }`: the body of an interface.
    InterfaceBody,
    /// `{ b; }` of `namespace a { b; }`: the body of a namespace.
    NamespaceBody,
    /// `.b { c; }` of `namespace a.b { c; }`: the same behind the name, with further names.
    DottedBody,
}
