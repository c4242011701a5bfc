//! Lists of comments, as they are read.

use crate::objects::Object;
use crate::remarks::{Kind, Lists, Remark};
use serde::{Deserialize, DeserializeOwned, Deserializer, Format};
use std::alloc::Global;
use std::collections::BTreeMap;
use swc_ecma_codegen_grammar::characters::is_line_end;

impl DeserializeOwned for Lists {
    fn deserialize_owned<F: Format>(
        alloc: Global,
        from: &mut Deserializer<'_, '_, F>,
    ) -> Result<Lists, F::Error> {
        let mut lists = BTreeMap::new(alloc);
        from.begin_map()?;
        for _ in 0..u64::MAX {
            if !from.next_entry()? {
                break;
            }
            let pos = u32::deserialize_owned(alloc, from)?;
            if lists.contains_key(&pos) {
                return Err(from.custom("a position comes twice"));
            }
            let list = list_in(alloc, from)?;
            if lists.insert(pos, list).is_err() {
                return Err(from.no_memory());
            }
        }
        Ok(Lists(lists))
    }
}

impl<'de> Deserialize<'de> for Lists {
    fn deserialize<F: Format>(
        alloc: Global,
        from: &mut Deserializer<'de, '_, F>,
    ) -> Result<Lists, F::Error> {
        Lists::deserialize_owned(alloc, from)
    }
}

/// The comments of a position.
fn list_in<F: Format>(
    alloc: Global,
    from: &mut Deserializer<'_, '_, F>,
) -> Result<Vec<Remark>, F::Error> {
    let mut list = Vec::new(alloc);
    from.begin_seq()?;
    for _ in 0..u64::MAX {
        if !from.next_item()? {
            break;
        }
        let Object(remark) = Object::<Remark>::deserialize_owned(alloc, from)?;
        if let Some(fault) = fault_in(&remark) {
            return Err(from.custom(fault));
        }
        if list.push(remark).is_err() {
            return Err(from.no_memory());
        }
    }
    Ok(list)
}

/// Why a comment would end before its end, and what is behind it in its text be no comment.
fn fault_in(remark: &Remark) -> Option<&'static str> {
    match remark.kind {
        Kind::Block if remark.text.contains("*/") => Some("`*/` in a block comment"),
        Kind::Line if remark.text.contains(is_line_end) => Some("a line end in a line comment"),
        _ => None,
    }
}
