//! Programs, items and statements by themselves.

ghost use Rattle.std.specs.Prelude.{◌≡◌, ◌↔◌, ◌&&◌, Bool, true, false, List};
ghost use Rattle.swc_ecma_codegen_grammar.specs.Phrases.{Generates, is_possible};
ghost use Rattle.swc_ecma_codegen_grammar.specs.Settings.{Settings};
ghost use Rattle.swc_ecma_codegen_grammar.specs.Tokens.{Token};
ghost use Rattle.swc_ecma_codegen_grammar.specs.TreePhrases.{stmt_phrase, program_phrase};
ghost use Rattle.swc_ecma_codegen_syntax.specs.Derives.{DerivesStmt, DerivesItem, DerivesProgram, bare_phrase, item_phrase, stmt_verdict, item_verdict, program_verdict};
ghost use Rattle.swc_ecma_codegen_syntax.specs.Verdicts.{core, holds, holds_in};

use crate::forms::Stands;
use crate::nonterminals::Nonterminal;
use crate::parameters::Parameters;
use crate::programs::program as judged;
use crate::recursion::stmt_facts;
use crate::verdicts::Verdict;
use crate::whole_trees::WholeTree;
use swc_ecma_codegen_tree::{ModuleItem, Program, Stmt};

/// What is said of a program, whatever the settings are: what holds both of an emission that
/// minifies and of one that doesn't. Takes no memory, and no more stack than the tree is deep.
pub fn verdict<N: WholeTree>(program: &Program<N>) -> Verdict
    ensures { result ≡ program_verdict (N.program_in program.now) }
{
    judged(program, false).meet(judged(program, true))
}

/// Whether a program keeps its structure: true exactly where under any settings the syntactic
/// grammar of ECMA-262, 2024, with JSX, import attributes, decorators, `using` and sections B.3.3
/// and B.3.5, derives a list of the program's tokens with this very tree as the derivation, from
/// Script or from Module. So its text can be read as this tree.
///
/// `(a + b) * c` without its parentheses doesn't, nor does `if (a) { if (b) c; } else d;` without
/// its braces. Settings change a derivation only by leaving `()` away from `new A()` where they are
/// to minify; both ways are asked for. A directive `"use strict"` isn't looked at: strict is the
/// code of modules and of classes. What has no production here has no derivation; `is_covered`
/// tells. Takes no memory.
pub fn keeps_structure<N: WholeTree>(program: &Program<N>) -> bool
    ensures sound { (s t : Settings) (ts us : List Token)
        → s.minify ≡ false → t.minify ≡ true
        → DerivesProgram true s (N.program_in program.now) ts
        → DerivesProgram true t (N.program_in program.now) us
        → result ≡ true }
    ensures read { (s : Settings) (ts : List Token)
        → DerivesProgram true s (N.program_in program.now) ts
        → Generates s (program_phrase (N.program_in program.now)) ts }
    ensures complete { result ≡ true → (s : Settings) (ts : List Token)
        → Generates s (bare_phrase (program_phrase (N.program_in program.now))) ts
        → DerivesProgram true s (N.program_in program.now) ts }
    ensures exactly { is_possible (program_phrase (N.program_in program.now)) ≡ true
        → (result ≡ true)
        ↔ ((s : Settings) → (ts : List Token)
        × DerivesProgram true s (N.program_in program.now) ts) }
    ensures verdict { result ≡ holds true (program_verdict (N.program_in program.now)) }
{
    verdict(program).is_derivation()
}

/// Whether nothing is wrong with a program but parentheses that are missing, and braces round an
/// `if` before `else`. See `is_curable_expr`. Takes no memory.
pub fn is_curable<N: WholeTree>(program: &Program<N>) -> bool
    ensures sound { (s t : Settings) (ts us : List Token)
        → s.minify ≡ false → t.minify ≡ true
        → DerivesProgram false s (N.program_in program.now) ts
        → DerivesProgram false t (N.program_in program.now) us
        → result ≡ true }
    ensures complete { result ≡ true → (s : Settings) (ts : List Token)
        → Generates s (bare_phrase (program_phrase (N.program_in program.now))) ts
        → DerivesProgram false s (N.program_in program.now) ts }
    ensures exactly { is_possible (program_phrase (N.program_in program.now)) ≡ true
        → (result ≡ true)
        ↔ ((s : Settings) → (ts : List Token)
        × DerivesProgram false s (N.program_in program.now) ts) }
    ensures verdict { result ≡ holds false (program_verdict (N.program_in program.now)) }
{
    verdict(program).is_curable()
}

/// Whether no part of a program wants parentheses that it hasn't, nor an `if` before `else` braces.
/// With `is_curable` it is `keeps_structure`. Takes no memory.
#[tactic(auto, using(crate::proofs::VerdictLaws::holds_both))]
pub fn is_parenthesized<N: WholeTree>(program: &Program<N>) -> bool
    ensures verdict { result ≡ (program_verdict (N.program_in program.now)).parenthesized }
    ensures both { holds true (program_verdict (N.program_in program.now))
        ≡ (holds false (program_verdict (N.program_in program.now)) && result) }
{
    verdict(program).parenthesized
}

/// Whether each node of a program has a production here, so that the other answers mean what they
/// say. It is false of TypeScript, of `source` and `defer` in imports, and of names that are
/// spelled with escapes; then the program neither keeps its structure nor is curable. Takes no
/// memory.
#[tactic(auto, using(crate::proofs::VerdictLaws::uncovered_holds))]
pub fn is_covered<N: WholeTree>(program: &Program<N>) -> bool
    ensures verdict { result ≡ (program_verdict (N.program_in program.now)).covered }
    ensures uncovered { result ≡ false → (places : Bool)
        → holds places (program_verdict (N.program_in program.now)) ≡ false }
{
    verdict(program).covered
}

/// Whether each production of a program is one of the core of the grammar: of ECMA-262, 2024, of
/// its section B.3.3, and of JSX. With `keeps_structure` it says that the core derives the program;
/// the laws of `swc_ecma_codegen_uniqueness` speak of such programs. It is false of `using`,
/// decorators, `accessor`, import attributes and `for (var a = b in c)`. Takes no memory.
pub fn is_core<N: WholeTree>(program: &Program<N>) -> bool
    ensures verdict { result ≡ (program_verdict (N.program_in program.now)).core }
    ensures both { holds_in core (program_verdict (N.program_in program.now))
        ≡ (result && holds true (program_verdict (N.program_in program.now))) }
{
    verdict(program).core
}

/// What is said of an item of a module with these parameters, as `Parameters::module()`. Takes no
/// memory.
pub fn verdict_item<N: WholeTree>(item: &ModuleItem<N>, parameters: Parameters) -> Verdict
    ensures { result ≡ item_verdict parameters (N.item_in item.now) }
{
    item.judge(Verdict::unasked(), parameters)
}

/// Whether an item of a module keeps its structure. See `keeps_structure_expr`. Takes no memory.
pub fn keeps_structure_item<N: WholeTree>(item: &ModuleItem<N>, parameters: Parameters) -> bool
    ensures sound { (s : Settings) (ts : List Token)
        → DerivesItem true s parameters (N.item_in item.now) ts
        → (result ≡ true) × Generates s (item_phrase (N.item_in item.now)) ts }
    ensures complete { result ≡ true → (s : Settings) (ts : List Token)
        → s.minify ≡ parameters.minify
        → Generates s (bare_phrase (item_phrase (N.item_in item.now))) ts
        → DerivesItem true s parameters (N.item_in item.now) ts }
    ensures exactly { is_possible (item_phrase (N.item_in item.now)) ≡ true → (s : Settings)
        → s.minify ≡ parameters.minify
        → (result ≡ true)
        ↔ ((ts : List Token) × DerivesItem true s parameters (N.item_in item.now) ts) }
    ensures verdict { result ≡ holds true (item_verdict parameters (N.item_in item.now)) }
{
    verdict_item(item, parameters).is_derivation()
}

/// Whether nothing is wrong with an item of a module but what parentheses or braces mend. See
/// `is_curable_expr`. Takes no memory.
pub fn is_curable_item<N: WholeTree>(item: &ModuleItem<N>, parameters: Parameters) -> bool
    ensures sound { (s : Settings) (ts : List Token)
        → DerivesItem false s parameters (N.item_in item.now) ts
        → (result ≡ true) × Generates s (item_phrase (N.item_in item.now)) ts }
    ensures complete { result ≡ true → (s : Settings) (ts : List Token)
        → s.minify ≡ parameters.minify
        → Generates s (bare_phrase (item_phrase (N.item_in item.now))) ts
        → DerivesItem false s parameters (N.item_in item.now) ts }
    ensures exactly { is_possible (item_phrase (N.item_in item.now)) ≡ true → (s : Settings)
        → s.minify ≡ parameters.minify
        → (result ≡ true)
        ↔ ((ts : List Token) × DerivesItem false s parameters (N.item_in item.now) ts) }
    ensures verdict { result ≡ holds false (item_verdict parameters (N.item_in item.now)) }
{
    verdict_item(item, parameters).is_curable()
}

/// What is said of a statement where this nonterminal with these parameters stands: Statement, or
/// StatementListItem where a declaration may stand. Takes no memory.
pub fn verdict_stmt<N: WholeTree>(
    stmt: &Stmt<N>,
    place: Nonterminal,
    parameters: Parameters,
) -> Verdict
    ensures { result ≡ stmt_verdict place parameters (N.stmt_in stmt.now) }
{
    Verdict::unasked().of_part(place, stmt_facts(stmt, parameters))
}

/// Whether a statement keeps its structure where this nonterminal with these parameters stands. See
/// `keeps_structure_expr`. `parameters` say also whether `return` may stand there, and what stands
/// right behind it: `else`, or an empty statement. Takes no memory.
pub fn keeps_structure_stmt<N: WholeTree>(
    stmt: &Stmt<N>,
    place: Nonterminal,
    parameters: Parameters,
) -> bool
    ensures sound { (s : Settings) (ts : List Token)
        → DerivesStmt true s place parameters (N.stmt_in stmt.now) ts
        → (result ≡ true) × Generates s (stmt_phrase (N.stmt_in stmt.now)) ts }
    ensures complete { result ≡ true → (s : Settings) (ts : List Token)
        → s.minify ≡ parameters.minify
        → Generates s (bare_phrase (stmt_phrase (N.stmt_in stmt.now))) ts
        → DerivesStmt true s place parameters (N.stmt_in stmt.now) ts }
    ensures exactly { is_possible (stmt_phrase (N.stmt_in stmt.now)) ≡ true → (s : Settings)
        → s.minify ≡ parameters.minify
        → (result ≡ true)
        ↔ ((ts : List Token) × DerivesStmt true s place parameters (N.stmt_in stmt.now) ts) }
    ensures verdict { result ≡ holds true (stmt_verdict place parameters (N.stmt_in stmt.now)) }
{
    verdict_stmt(stmt, place, parameters).is_derivation()
}

/// Whether nothing is wrong with a statement but what parentheses or braces mend. See
/// `is_curable_expr`. Takes no memory.
pub fn is_curable_stmt<N: WholeTree>(
    stmt: &Stmt<N>,
    place: Nonterminal,
    parameters: Parameters,
) -> bool
    ensures sound { (s : Settings) (ts : List Token)
        → DerivesStmt false s place parameters (N.stmt_in stmt.now) ts
        → (result ≡ true) × Generates s (stmt_phrase (N.stmt_in stmt.now)) ts }
    ensures complete { result ≡ true → (s : Settings) (ts : List Token)
        → s.minify ≡ parameters.minify
        → Generates s (bare_phrase (stmt_phrase (N.stmt_in stmt.now))) ts
        → DerivesStmt false s place parameters (N.stmt_in stmt.now) ts }
    ensures exactly { is_possible (stmt_phrase (N.stmt_in stmt.now)) ≡ true → (s : Settings)
        → s.minify ≡ parameters.minify
        → (result ≡ true)
        ↔ ((ts : List Token) × DerivesStmt false s place parameters (N.stmt_in stmt.now) ts) }
    ensures verdict { result ≡ holds false (stmt_verdict place parameters (N.stmt_in stmt.now)) }
{
    verdict_stmt(stmt, place, parameters).is_curable()
}
