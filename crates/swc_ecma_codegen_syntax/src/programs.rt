//! Scripts and modules.

ghost use Rattle.std.specs.Prelude.{◌≡◌};
ghost use Rattle.swc_ecma_codegen_syntax.specs.Forms.{judge};
ghost use Rattle.swc_ecma_codegen_syntax.specs.ModuleForms.{item_form, is_empty_item, begins_empty_item, items_form, program_form};
ghost use Rattle.swc_ecma_codegen_syntax.specs.Verdicts.{unasked};

use crate::forms::{Answers, Stands};
use crate::nonterminals::Nonterminal;
use crate::parameters::{Parameters, in_list};
use crate::stmts::{is_empty, list};
use crate::verdicts::Verdict;
use swc_ecma_codegen_grammar::roles::Role;
use swc_ecma_codegen_tree::{ModuleItem, Program};

impl<N: Answers> Stands for ModuleItem<N> {
    ghost judged = { λ c n v. judge N.answers v (item_form c n) };

    #[tactic(auto, unfolding(crate::specs::ModuleForms::item_form, crate::specs::Forms::judge))]
    fn judge(&self, so_far: Verdict, parameters: Parameters) -> Verdict {
        match self {
            ModuleItem::ModuleDecl(link) => so_far.part(
                link,
                Nonterminal::ModuleDeclaration,
                parameters,
                Role::ModuleDeclaration,
            ),
            ModuleItem::Stmt(node) => node.judge(so_far, parameters),
        }
    }
}

/// Whether it is a semicolon alone.
#[tactic(auto, unfolding(crate::specs::ModuleForms::is_empty_item))]
fn is_empty_item<N: Answers>(item: &ModuleItem<N>) -> bool
    ensures { result ≡ is_empty_item item.now }
{
    match item {
        ModuleItem::Stmt(node) => is_empty(node),
        ModuleItem::ModuleDecl(_) => false,
    }
}

/// Whether the first is one.
#[tactic(auto, unfolding(crate::specs::ModuleForms::begins_empty_item))]
fn begins_empty_item<N: Answers>(items: &[ModuleItem<N>]) -> bool
    ensures { result ≡ begins_empty_item items.now }
{
    match items.first() {
        Some(item) => is_empty_item(item),
        None => false,
    }
}

/// The verdict so far, and of a ModuleItemList.
#[tactic(auto, unfolding(crate::specs::ModuleForms::items_form, crate::specs::Forms::judge))]
fn items<N: Answers>(so_far: Verdict, items: &[ModuleItem<N>], parameters: Parameters) -> Verdict
    ensures { result ≡ judge N.answers so_far (items_form parameters items.now) }
{
    let mut verdict = so_far;
    for index in 0..items.len() {
        let before_empty = begins_empty_item(&items[index + 1..]);
        verdict = items[index].judge(verdict, in_list(before_empty, parameters));
    }
    verdict
}

/// What is said of a program, for an emission that minifies or one that doesn't.
#[tactic(auto, unfolding(crate::specs::ModuleForms::program_form, crate::specs::ModuleForms::module_form, crate::specs::ModuleForms::script_form, crate::specs::Forms::judge))]
pub(crate) fn program<N: Answers>(program: &Program<N>, minify: bool) -> Verdict
    ensures { result ≡ judge N.answers unasked (program_form minify program.now) }
{
    let start = Verdict::unasked();
    match program {
        Program::Module(module) => {
            let parameters = Parameters {
                minify,
                ..Parameters::module()
            };
            items(start, &module.body, parameters)
        }
        Program::Script(script) => {
            let parameters = Parameters {
                minify,
                ..Parameters::script()
            };
            list(start, &script.body, parameters)
        }
    }
}
