//! Requests: a program, its source text, and how it is printed.

use crate::ids::Known;
use crate::objects::Object;
use crate::remarks::Placed;
use crate::settings::Settings;
use serde::Deserialize;

/// A request, whose program is a `T`, or an `F` in its flat form.
#[derive(Drop, Deserialize)]
#[serde(deny_unknown_fields)]
pub(crate) struct Request<T, F> {
    #[serde(default)]
    pub(crate) id: Known,
    #[serde(default)]
    pub(crate) tree: Option<T>,
    #[serde(default)]
    pub(crate) flat: Option<F>,
    #[serde(default)]
    pub(crate) source: Option<String>,
    #[serde(default)]
    pub(crate) first: Option<u32>,
    #[serde(default)]
    pub(crate) comments: Option<Object<Placed>>,
    #[serde(default)]
    pub(crate) config: Object<Settings>,
    #[serde(default)]
    pub(crate) positions: bool,
    #[serde(default)]
    pub(crate) any: bool,
    #[serde(default)]
    pub(crate) parenthesize: bool,
}
