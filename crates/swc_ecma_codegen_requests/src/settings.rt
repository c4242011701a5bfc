//! The settings of a request.

ghost use Rattle.std.specs.Prelude.{◌≡◌};
ghost use Rattle.swc_ecma_codegen_requests.specs.Settings.{config_of, layout_of, version_of};

use crate::layouts::{Indent, Layout, NewLine};
use serde::Deserialize;
use swc_ecma_codegen_common::EsVersion;
use swc_ecma_codegen_settings::config::Config;

/// Settings; those left out are as in `Config::default()`, with four blanks a level and LF.
#[derive(Clone, Copy, Default, Deserialize)]
#[serde(deny_unknown_fields)]
pub(crate) struct Settings {
    #[serde(default)]
    minify: bool,
    #[serde(default)]
    ascii_only: bool,
    #[serde(default)]
    omit_last_semi: bool,
    #[serde(default)]
    emit_assert_for_import_attributes: bool,
    #[serde(default)]
    inline_script: bool,
    #[serde(default)]
    target: Option<Version>,
    #[serde(default)]
    max_line: Option<u32>,
    #[serde(default)]
    indent: Indent,
    #[serde(default)]
    new_line: NewLine,
}

/// A version of the language.
#[derive(Debug, Clone, Copy, PartialEq, Eq, Deserialize)]
#[serde(rename_all = "lowercase")]
enum Version {
    Es3,
    Es5,
    Es2015,
    Es2016,
    Es2017,
    Es2018,
    Es2019,
    Es2020,
    Es2021,
    Es2022,
    EsNext,
}

impl Version {
    fn target(self) -> EsVersion
        ensures { result ≡ version_of self }
    {
        match self {
            Version::Es3 => EsVersion::Es3,
            Version::Es5 => EsVersion::Es5,
            Version::Es2015 => EsVersion::Es2015,
            Version::Es2016 => EsVersion::Es2016,
            Version::Es2017 => EsVersion::Es2017,
            Version::Es2018 => EsVersion::Es2018,
            Version::Es2019 => EsVersion::Es2019,
            Version::Es2020 => EsVersion::Es2020,
            Version::Es2021 => EsVersion::Es2021,
            Version::Es2022 => EsVersion::Es2022,
            Version::EsNext => EsVersion::EsNext,
        }
    }
}

impl Settings {
    /// The layout that they ask for.
    pub(crate) fn layout(self) -> Layout
        ensures { result ≡ layout_of self }
    {
        Layout {
            indent: self.indent,
            new_line: self.new_line,
        }
    }

    /// The settings that they ask for.
    pub(crate) fn config(self) -> Config
        ensures { result ≡ config_of self }
    {
        let target = match self.target {
            Some(version) => version.target(),
            None => EsVersion::latest(),
        };
        Config::default()
            .with_target(target)
            .with_minify(self.minify)
            .with_ascii_only(self.ascii_only)
            .with_omit_last_semi(self.omit_last_semi)
            .with_emit_assert_for_import_attributes(self.emit_assert_for_import_attributes)
            .with_inline_script(self.inline_script)
            .with_max_line(self.max_line)
    }
}
