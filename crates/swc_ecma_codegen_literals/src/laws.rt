//! Laws for callers, each the contract of a function that does nothing: what the spellings are as
//! tokens, and how they begin.

ghost use Rattle.std.specs.Prelude.{◌≡◌, ℕ, Bool, List, true, false, Some};
ghost use Rattle.std.specs.Str.{chars, IsAscii, IsUtf8};
ghost use Rattle.std.specs.String.{string_bytes};
ghost use Rattle.swc_ecma_codegen_common.specs.declared.decimals.Decimal.{Decimal};
ghost use Rattle.swc_ecma_codegen_common.specs.declared.versions.EsVersion.{EsVersion};
ghost use Rattle.swc_ecma_codegen_tree.specs.declared.lits.BigInt.{BigInt};
ghost use Rattle.swc_ecma_codegen_tree.specs.declared.lits.Radix.{Radix};
ghost use Rattle.swc_ecma_codegen_grammar.specs.declared.kinds.Kind.TheVariants.{BigInt as BigIntKind, Number};
ghost use Rattle.swc_ecma_codegen_grammar.specs.DecimalValues.{exact_size};
ghost use Rattle.swc_ecma_codegen_grammar.specs.LitPhrases.{are_digits, big_int_token, number_token, string_token};
ghost use Rattle.swc_ecma_codegen_grammar.specs.Names.{is_name};
ghost use Rattle.swc_ecma_codegen_grammar.specs.Numbers.{is_number, is_big_integer};
ghost use Rattle.swc_ecma_codegen_grammar.specs.Strings.{is_string};
ghost use Rattle.swc_ecma_codegen_grammar.specs.StringValues.{string_value};
ghost use Rattle.swc_ecma_codegen_grammar.specs.Tokens.{Spells, Value};
ghost use Rattle.swc_ecma_codegen_literals.specs.AsciiNames.{ascii_name, is_quoted_key};
ghost use Rattle.swc_ecma_codegen_literals.specs.Beginnings.{begins_name, begins_numeric, begins_quoted};
ghost use Rattle.swc_ecma_codegen_literals.specs.BigIntegers.{big_text, big_part, IsBigInteger, IsSignedInteger};
ghost use Rattle.swc_ecma_codegen_literals.specs.NumberTexts.{plain_text, minified_text, plain_part, minified_part, IsSignedSize, IsSizeOf};
ghost use Rattle.swc_ecma_codegen_literals.specs.Separators.{without_underscores, IsWorthAsMuch};

/// A string literal without octal escapes, as `quoted_utf16` gives it, is one too where these are
/// allowed, and means the same.
#[tactic(auto, using(crate::proofs::StringTokens::strict_is_string, crate::proofs::StringTokens::strict_same))]
pub fn strict_strings_stay()
    ensures token { (text units : List ℕ) → string_value false text ≡ Some units →
        is_string text ≡ true }
    ensures value { (text units : List ℕ) → string_value false text ≡ Some units →
        string_value true text ≡ Some units }
{}

/// A string literal begins with a quote, a number with a digit or with a dot and a digit, and a
/// name with a character that a name may begin with or with a backslash. The same of a name in
/// ASCII, which a quote begins where it is quoted.
#[tactic(auto, using(crate::proofs::BeginningLaws::string_begins, crate::proofs::BeginningLaws::number_begins, crate::proofs::BeginningLaws::big_integer_begins, crate::proofs::BeginningLaws::name_begins, crate::proofs::BeginningLaws::ascii_name_begins, crate::proofs::BeginningLaws::quoted_key_begins))]
pub fn spellings_begin()
    ensures string { (text : List ℕ) → is_string text ≡ true → begins_quoted text ≡ true }
    ensures number { (text : List ℕ) → is_number text ≡ true → begins_numeric text ≡ true }
    ensures big_integer { (text : List ℕ) → is_big_integer text ≡ true →
        begins_numeric text ≡ true }
    ensures name { (text : List ℕ) → is_name text ≡ true → begins_name text ≡ true }
    ensures ascii_name { (key : Bool) (v : EsVersion) (text : List ℕ) → is_name text ≡ true →
        is_quoted_key key v text ≡ false → begins_name (ascii_name key v text) ≡ true }
    ensures quoted_key { (key : Bool) (v : EsVersion) (text : List ℕ) →
        is_quoted_key key v text ≡ true → begins_quoted (ascii_name key v text) ≡ true }
{}

/// A name in ASCII stays as it is under `ascii_only`, so that it may be lent.
#[tactic(auto, using(crate::proofs::BeginningLaws::ascii_name_stays))]
pub fn ascii_names_stay()
    ensures { (key : Bool) (v : EsVersion) (text : List ℕ) → IsAscii text →
        ascii_name key v (chars text) ≡ text }
{}

/// The text of a number is `-` where it is below zero, and then one numeric token of its size: `-5`
/// is `-` and `5`.
#[tactic(auto, using(crate::proofs::NumberTokens::plain_signed, crate::proofs::NumberTokens::minified_signed))]
pub fn numbers_are_signed_sizes()
    ensures plain { (number : Decimal) →
        IsSignedSize number (plain_text number) (plain_part number) }
    ensures minified { (number : Decimal) →
        IsSignedSize number (minified_text number) (minified_part number) }
{}

/// A number without `_` is one, of the same value, and so is a big integer, of the same radix and
/// digits. That the bytes of a text are without `_` or its characters is one and the same.
#[tactic(auto, using(crate::proofs::SeparatedTexts::worth_as_much, crate::proofs::SeparatedTexts::chars_without, crate::proofs::SeparatedTexts::ascii_without))]
pub fn separators_stand_for_nothing()
    ensures worth { (text : List ℕ) → IsWorthAsMuch text (without_underscores text) }
    ensures characters { (bytes : List ℕ) → IsUtf8 bytes →
        chars (without_underscores bytes) ≡ without_underscores (chars bytes) }
    ensures ascii { (bytes : List ℕ) → IsAscii bytes → IsAscii (without_underscores bytes) }
{}

/// The text of a big integer is `-` where it is below zero, and then, with its `n`, one token of
/// its radix and digits.
#[tactic(auto, using(crate::proofs::BigTokens::big_signed))]
pub fn big_integers_are_signed_sizes()
    ensures { (n : BigInt) → are_digits n.radix (chars (string_bytes n.digits)) ≡ true →
        IsSignedInteger n (big_text n) (big_part n) }
{}

/// The spellings are tokens: a string literal without octal escapes is one of its units, the size
/// of a number one of its value, a big integer one of its radix and digits. A number or a big
/// integer stays the same token without `_`.
pub fn spellings_are_tokens()
    ensures string { (text units : List ℕ) → string_value false text ≡ Some units →
        Spells (string_token units) text }
    ensures number { (number : Decimal) (size : List ℕ) → IsSizeOf number size →
        Spells (number_token (exact_size number)) (chars size) }
    ensures big_integer { (radix : Radix) (digits text : List ℕ) → IsBigInteger radix digits text →
        Spells (big_int_token radix digits) text }
    ensures number_without { (value : Value) (text : List ℕ) →
        Spells (record { kind = Number; value = value }) text →
        Spells (record { kind = Number; value = value }) (without_underscores text) }
    ensures big_integer_without { (value : Value) (text : List ℕ) →
        Spells (record { kind = BigIntKind; value = value }) text →
        Spells (record { kind = BigIntKind; value = value }) (without_underscores text) }
{}
