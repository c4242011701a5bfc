//! Declarations of TypeScript.

ghost use Rattle.swc_ecma_codegen_parentheses.specs.SameTsDecls.{same_ts_enum_member, same_ts_enum_decl, same_ts_export_assignment};

use crate::mends::{Mend, Mends, Stop};
use crate::places::Place;
use std::alloc::Global;
use swc_ecma_codegen_syntax::{Answers, Nonterminal};
use swc_ecma_codegen_tree::{TsEnumDecl, TsEnumMember, TsExportAssignment};

impl<N: Answers, M: Mends<N>> Mend<N, M> for TsEnumMember<N> {
    ghost same = { same_ts_enum_member };

    #[tactic(auto, unfolding(crate::specs::SameTsDecls::same_ts_enum_member))]
    fn mend(&mut self, mender: &M, alloc: Global, place: Place) -> Result<(), Stop> {
        self.init.mend(
            mender,
            alloc,
            place.bracketed(Nonterminal::AssignmentExpression),
        )
    }
}

impl<N: Answers, M: Mends<N>> Mend<N, M> for TsEnumDecl<N> {
    ghost same = { same_ts_enum_decl };

    #[tactic(auto, unfolding(crate::specs::SameTsDecls::same_ts_enum_decl))]
    fn mend(&mut self, mender: &M, alloc: Global, place: Place) -> Result<(), Stop> {
        self.members.mend(mender, alloc, place)
    }
}

impl<N: Answers, M: Mends<N>> Mend<N, M> for TsExportAssignment<N> {
    ghost same = { same_ts_export_assignment };

    #[tactic(auto, unfolding(crate::specs::SameTsDecls::same_ts_export_assignment))]
    fn mend(&mut self, mender: &M, alloc: Global, place: Place) -> Result<(), Stop> {
        self.expr.mend(
            mender,
            alloc,
            place.bracketed(Nonterminal::AssignmentExpression),
        )
    }
}
