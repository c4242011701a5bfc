//! Objects and the names of properties.

ghost use Rattle.std.specs.Prelude.{◌≡◌};
ghost use Rattle.swc_ecma_codegen_syntax.specs.Forms.{judge};
ghost use Rattle.swc_ecma_codegen_syntax.specs.Parameters.{with_in};
ghost use Rattle.swc_ecma_codegen_syntax.specs.declared.nonterminals.Nonterminal.TheVariants.{AssignmentExpression};
ghost use Rattle.swc_ecma_codegen_syntax.specs.MemberForms.{expr_part, computed_form};
ghost use Rattle.swc_ecma_codegen_syntax.specs.ObjectForms.{prop_name_form, key_value_form, assign_prop_form, accessor_body_form, getter_form, this_param_form, setter_form, method_prop_form, property_form, spread_form, prop_or_spread_form, object_form};

use crate::forms::{Answers, Stands, all};
use crate::names::{is_literal_number, name};
use crate::nonterminals::Nonterminal;
use crate::parameters::{Parameters, of_function, of_parameters, with_in};
use crate::pats::annotation;
use crate::verdicts::Verdict;
use swc_ecma_codegen_grammar::roles::Role;
use swc_ecma_codegen_tree::{
    AssignProp, BlockStmtBox, ComputedPropName, ExprBox, GetterProp, KeyValueProp, MethodProp,
    ObjectLit, PatBox, Prop, PropName, PropOrSpread, SetterProp, SpreadElement,
};

/// An AssignmentExpression, between what parts it from others.
pub(crate) fn assigned<N: Answers>(
    so_far: Verdict,
    expr: &ExprBox<N>,
    parameters: Parameters,
) -> Verdict
    ensures { result
        ≡ judge N.answers so_far (expr_part AssignmentExpression (with_in parameters) expr.now) }
{
    so_far.part(
        expr,
        Nonterminal::AssignmentExpression,
        with_in(parameters),
        Role::Expression,
    )
}

/// What stands between brackets.
#[tactic(auto, unfolding(crate::specs::MemberForms::computed_form, crate::specs::Forms::judge))]
pub(crate) fn computed<N: Answers>(
    so_far: Verdict,
    name: &ComputedPropName<N>,
    place: Nonterminal,
    parameters: Parameters,
) -> Verdict
    ensures { result ≡ judge N.answers so_far (computed_form place parameters name.now) }
{
    so_far.part(&name.expr, place, with_in(parameters), Role::Expression)
}

impl<N: Answers> Stands for PropName<N> {
    ghost judged = { λ c n v. judge N.answers v (prop_name_form c n) };

    #[tactic(auto, unfolding(crate::specs::ObjectForms::prop_name_form, crate::specs::Forms::judge, crate::specs::Forms::asked))]
    fn judge(&self, so_far: Verdict, parameters: Parameters) -> Verdict {
        match self {
            PropName::Ident(_) | PropName::Str(_) => so_far,
            PropName::Num(number) => so_far.by_rule(is_literal_number(number)),
            PropName::BigInt(number) => so_far.by_rule(!number.negative),
            PropName::Computed(name) => computed(
                so_far,
                name,
                Nonterminal::AssignmentExpression,
                parameters,
            ),
        }
    }
}

impl<N: Answers> Stands for KeyValueProp<N> {
    ghost judged = { λ c n v. judge N.answers v (key_value_form c n) };

    #[tactic(auto, unfolding(crate::specs::ObjectForms::key_value_form, crate::specs::Forms::judge))]
    fn judge(&self, so_far: Verdict, parameters: Parameters) -> Verdict {
        assigned(self.key.judge(so_far, parameters), &self.value, parameters)
    }
}

impl<N: Answers> Stands for AssignProp<N> {
    ghost judged = { λ c n v. judge N.answers v (assign_prop_form c n) };

    #[tactic(auto, unfolding(crate::specs::ObjectForms::assign_prop_form, crate::specs::Forms::judge, crate::specs::Forms::asked))]
    fn judge(&self, so_far: Verdict, parameters: Parameters) -> Verdict {
        assigned(
            name::<N>(so_far.by_rule(false), &self.key, parameters),
            &self.value,
            parameters,
        )
    }
}

/// The body of a getter or a setter; one without is of TypeScript.
#[tactic(auto, unfolding(crate::specs::ObjectForms::accessor_body_form, crate::specs::Forms::judge, crate::specs::Forms::asked))]
fn accessor_body<N: Answers>(
    so_far: Verdict,
    body: &Option<BlockStmtBox<N>>,
    parameters: Parameters,
) -> Verdict
    ensures { result ≡ judge N.answers so_far (accessor_body_form parameters body.now) }
{
    match body {
        Some(body) => so_far.part(
            body,
            Nonterminal::Block,
            of_function(false, false, parameters),
            Role::Block,
        ),
        None => so_far.by_scope(false),
    }
}

impl<N: Answers> Stands for GetterProp<N> {
    ghost judged = { λ c n v. judge N.answers v (getter_form c n) };

    #[tactic(auto, unfolding(crate::specs::ObjectForms::getter_form, crate::specs::Forms::judge))]
    fn judge(&self, so_far: Verdict, parameters: Parameters) -> Verdict {
        let verdict = so_far.part(
            &self.key,
            Nonterminal::AnyPropertyName,
            parameters,
            Role::PropertyName,
        );
        let verdict = annotation(verdict, &self.type_ann, parameters);
        accessor_body(verdict, &self.body, parameters)
    }
}

/// The parameter `this` of a setter, which is of TypeScript.
#[tactic(auto, unfolding(crate::specs::ObjectForms::this_param_form, crate::specs::Forms::judge, crate::specs::Forms::asked))]
fn this_param<N: Answers>(
    so_far: Verdict,
    param: &Option<PatBox<N>>,
    parameters: Parameters,
) -> Verdict
    ensures { result ≡ judge N.answers so_far (this_param_form parameters param.now) }
{
    match param {
        Some(param) => so_far
            .by_scope(false)
            .part(param, Nonterminal::Uncovered, parameters, Role::Pattern),
        None => so_far,
    }
}

impl<N: Answers> Stands for SetterProp<N> {
    ghost judged = { λ c n v. judge N.answers v (setter_form c n) };

    #[tactic(auto, unfolding(crate::specs::ObjectForms::setter_form, crate::specs::Forms::judge))]
    fn judge(&self, so_far: Verdict, parameters: Parameters) -> Verdict {
        let verdict = so_far.part(
            &self.key,
            Nonterminal::AnyPropertyName,
            parameters,
            Role::PropertyName,
        );
        let verdict = this_param(verdict, &self.this_param, parameters).part(
            &self.param,
            Nonterminal::PatternElement,
            of_parameters(false, false, parameters),
            Role::Pattern,
        );
        accessor_body(verdict, &self.body, parameters)
    }
}

impl<N: Answers> Stands for MethodProp<N> {
    ghost judged = { λ c n v. judge N.answers v (method_prop_form c n) };

    #[tactic(auto, unfolding(crate::specs::ObjectForms::method_prop_form, crate::specs::Forms::judge))]
    fn judge(&self, so_far: Verdict, parameters: Parameters) -> Verdict {
        let verdict = so_far.part(
            &self.function,
            Nonterminal::MethodHead,
            parameters,
            Role::MethodHead,
        );
        self.key.judge(verdict, parameters).part(
            &self.function,
            Nonterminal::FunctionTail,
            parameters,
            Role::Function,
        )
    }
}

impl<N: Answers> Stands for Prop<N> {
    ghost judged = { λ c n v. judge N.answers v (property_form c n) };

    #[tactic(auto, unfolding(crate::specs::ObjectForms::property_form, crate::specs::Forms::judge, crate::specs::Forms::asked))]
    fn judge(&self, so_far: Verdict, parameters: Parameters) -> Verdict {
        match self {
            Prop::Shorthand(node) => name::<N>(so_far, node, parameters),
            Prop::KeyValue(node) => node.judge(so_far, parameters),
            Prop::Assign(node) => node.judge(so_far, parameters),
            Prop::Getter(node) => node.judge(so_far, parameters),
            Prop::Setter(node) => node.judge(so_far, parameters),
            Prop::Method(node) => node.judge(so_far, parameters),
        }
    }
}

impl<N: Answers> Stands for SpreadElement<N> {
    ghost judged = { λ c n v. judge N.answers v (spread_form c n) };

    #[tactic(auto, unfolding(crate::specs::ObjectForms::spread_form, crate::specs::Forms::judge))]
    fn judge(&self, so_far: Verdict, parameters: Parameters) -> Verdict {
        assigned(so_far, &self.expr, parameters)
    }
}

impl<N: Answers> Stands for PropOrSpread<N> {
    ghost judged = { λ c n v. judge N.answers v (prop_or_spread_form c n) };

    #[tactic(auto, unfolding(crate::specs::ObjectForms::prop_or_spread_form))]
    fn judge(&self, so_far: Verdict, parameters: Parameters) -> Verdict {
        match self {
            PropOrSpread::Spread(node) => node.judge(so_far, parameters),
            PropOrSpread::Prop(node) => node.judge(so_far, parameters),
        }
    }
}

impl<N: Answers> Stands for ObjectLit<N> {
    ghost judged = { λ c n v. judge N.answers v (object_form c n) };

    #[tactic(auto, using(crate::proofs::CallsJudged::object_judged))]
    fn judge(&self, so_far: Verdict, parameters: Parameters) -> Verdict {
        all(so_far, &self.props, parameters)
    }
}
