//! Whether a node's text begins or ends with a character of a name, which a neighbour would go on
//! with.

ghost use Rattle.std.specs.Prelude.{◌≡◌, Bool};

use swc_ecma_codegen_tree::Link;

/// Whether its text begins with a character of a name. swc's `util::StartsWithAlphaNum`.
pub trait StartsWithAlphaNum {
    ghost starts: { Self → Bool };

    /// Whether it does. Takes no memory.
    fn starts_with_alpha_num(&self) -> bool
        ensures { result ≡ starts self.now };
}

/// Whether its text ends with a character of a name. swc's `util::EndsWithAlphaNum`.
pub trait EndsWithAlphaNum {
    ghost ends: { Self → Bool };

    /// Whether it does. Takes no memory.
    fn ends_with_alpha_num(&self) -> bool
        ensures { result ≡ ends self.now };
}

impl<T: StartsWithAlphaNum> StartsWithAlphaNum for &T {
    ghost starts = { λ n. T.starts n.now };

    fn starts_with_alpha_num(&self) -> bool {
        (**self).starts_with_alpha_num()
    }
}

impl<T: StartsWithAlphaNum> StartsWithAlphaNum for Box<T> {
    ghost starts = { λ n. T.starts n.value };

    fn starts_with_alpha_num(&self) -> bool {
        (**self).starts_with_alpha_num()
    }
}

impl<K, N: StartsWithAlphaNum> StartsWithAlphaNum for Link<K, N> {
    ghost starts = { λ n. N.starts n.node.value };

    fn starts_with_alpha_num(&self) -> bool {
        self.target().starts_with_alpha_num()
    }
}

impl<T: EndsWithAlphaNum> EndsWithAlphaNum for &T {
    ghost ends = { λ n. T.ends n.now };

    fn ends_with_alpha_num(&self) -> bool {
        (**self).ends_with_alpha_num()
    }
}

impl<T: EndsWithAlphaNum> EndsWithAlphaNum for Box<T> {
    ghost ends = { λ n. T.ends n.value };

    fn ends_with_alpha_num(&self) -> bool {
        (**self).ends_with_alpha_num()
    }
}

impl<K, N: EndsWithAlphaNum> EndsWithAlphaNum for Link<K, N> {
    ghost ends = { λ n. N.ends n.node.value };

    fn ends_with_alpha_num(&self) -> bool {
        self.target().ends_with_alpha_num()
    }
}
