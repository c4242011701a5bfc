//! The settings of an emission.

ghost use Rattle.std.specs.Prelude.{◌≡◌};
ghost use Rattle.swc_ecma_codegen_settings.specs.Defaults.{default_config};

use swc_ecma_codegen_common::EsVersion;

/// The settings of an emission. swc's `Config`.
#[derive(Debug, Clone, Copy)]
pub struct Config {
    /// The version that literals and names are spelled for.
    pub target: EsVersion,
    /// Names, strings and templates are spelled in ASCII.
    pub ascii_only: bool,
    /// No blank and no line end stands where none is needed.
    pub minify: bool,
    /// A semicolon that is held back at the end isn't written.
    pub omit_last_semi: bool,
    /// Attributes of an import come after `assert`, not after `with`.
    pub emit_assert_for_import_attributes: bool,
    /// Strings hold neither `</script` nor `<!--` nor `-->`.
    pub inline_script: bool,
    /// The greatest length of lines of a module or script that is minified, in UTF-16 units: a line
    /// that is longer holds no place where it may be ended.
    pub max_line: Option<u32>,
}

impl Default for Config {
    ghost is_default = { λ c. c ≡ default_config };

    /// The latest version, and all else false.
    fn default() -> Config {
        Config {
            target: EsVersion::latest(),
            ascii_only: false,
            minify: false,
            omit_last_semi: false,
            emit_assert_for_import_attributes: false,
            inline_script: false,
            max_line: None,
        }
    }
}

/// Settings that differ from these in one thing, as swc's calls of the same names:
/// `Config::default().with_minify(true)` minifies, and is else the default.
impl Config {
    /// Literals and names are spelled for this version.
    pub fn with_target(mut self, target: EsVersion) -> Self
        ensures { result ≡ record self { target = target } }
    {
        self.target = target;
        self
    }

    /// Whether blanks and line ends stand only where one is needed.
    pub fn with_minify(mut self, minify: bool) -> Self
        ensures { result ≡ record self { minify = minify } }
    {
        self.minify = minify;
        self
    }

    /// Whether names, strings and templates are spelled in ASCII.
    pub fn with_ascii_only(mut self, ascii_only: bool) -> Self
        ensures { result ≡ record self { ascii_only = ascii_only } }
    {
        self.ascii_only = ascii_only;
        self
    }

    /// Whether a semicolon that is held back at the end is left out.
    pub fn with_omit_last_semi(mut self, omit_last_semi: bool) -> Self
        ensures { result ≡ record self { omit_last_semi = omit_last_semi } }
    {
        self.omit_last_semi = omit_last_semi;
        self
    }

    /// Whether attributes of an import come after `assert`, and not after `with`.
    pub fn with_emit_assert_for_import_attributes(
        mut self,
        emit_assert_for_import_attributes: bool,
    ) -> Self
        ensures { result ≡ record self
            { emit_assert_for_import_attributes = emit_assert_for_import_attributes } }
    {
        self.emit_assert_for_import_attributes = emit_assert_for_import_attributes;
        self
    }

    /// Whether strings hold neither `</script` nor `<!--` nor `-->`.
    pub fn with_inline_script(mut self, inline_script: bool) -> Self
        ensures { result ≡ record self { inline_script = inline_script } }
    {
        self.inline_script = inline_script;
        self
    }

    /// The greatest length of lines, in UTF-16 units, of a module or script that is minified;
    /// `None` for no such length. Lines are ended behind `,` `;` `(` `[` `{` and the operators of
    /// two operands, as few as can be.
    pub fn with_max_line(mut self, max_line: Option<u32>) -> Self
        ensures { result ≡ record self { max_line = max_line } }
    {
        self.max_line = max_line;
        self
    }
}
