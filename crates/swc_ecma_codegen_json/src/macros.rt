//! The bodies of the readers.

/// The names of fields or variants, as they stand in the input.
#[macro_export]
macro_rules! names {
    ($($own:ident),* $(,)?) => {
        &[$(serde::Name {
            name: stringify!($own),
            kind: serde::NameKind::Field,
            case: serde::Case::AsIs,
            aliases: &[],
            skipped: false,
        }),*]
    };
}

/// A pattern for values one in another: `(a, (b, ()))`.
#[macro_export]
macro_rules! values {
    () => {
        ()
    };
    ($field:ident $(, $rest:ident)*) => {
        ($field, $crate::values!($($rest),*))
    };
}

/// A pattern for groups of values, one in another: `Both((a, (b, ())), Both((c, ()), (d, ())))`.
#[macro_export]
macro_rules! groups {
    ([$($field:ident),*]) => {
        $crate::values!($($field),*)
    };
    ([$($field:ident),*] $($rest:tt)+) => {
        $crate::objects::Both($crate::values!($($field),*), $crate::groups!($($rest)+))
    };
}

/// A struct of the values of its members: `BinExpr { span, op, left, right }`, or in groups where
/// it is wide, `{ a, b; c, d }`.
#[macro_export]
macro_rules! made {
    ($values:ident => $name:ident { $($($field:ident),* $(,)?);* }) => {{
        let $crate::groups!($([$($field),*])*) = $values;
        Ok($name { $($($field),*),* })
    }};
}

/// The variant at a place. Past these variants the enum's others are looked for, where they are
/// named: a check of few variants at a time is cheaper.
#[macro_export]
macro_rules! held {
    ($variant:ident, $source:ident, $make:ident => $name:ident {
        $($own:ident),* $(,)?
    } $(else $others:ident)?) => {
        $crate::held_arms!(
            $variant $source $make $name [$($others)?] [] [0 1 2 3 4 5 6 7 8 9] $($own)*
        )
    };
}

/// The arms of `held`, each with its place. They match, since a check of as many `?` costs a
/// twelfth more.
#[macro_export]
macro_rules! held_arms {
    (
        $variant:ident $source:ident $make:ident $name:ident $others:tt
        [$($arms:tt)*] [$place:literal $($places:literal)*] $own:ident $($rest:ident)*
    ) => {
        $crate::held_arms!($variant $source $make $name $others [
            $($arms)* $place => match $crate::reading::read($source, $make) {
                Ok(node) => Ok($name::$own(node)),
                Err(failed) => Err(failed),
            },
        ] [$($places)*] $($rest)*)
    };
    (
        $variant:ident $source:ident $make:ident $name:ident [$others:ident]
        [$($arms:tt)*] [$place:literal $($places:literal)*]
    ) => {
        match $variant.0 {
            $($arms)*
            _ => $others($variant.past($place), $source, $make),
        }
    };
    (
        $variant:ident $source:ident $make:ident $name:ident []
        [$($arms:tt)*] [$($places:literal)*]
    ) => {
        match $variant.0 {
            $($arms)*
            _ => Err($source.fail($crate::source::Fault::UnknownVariant)),
        }
    };
}

/// The word at a place.
#[macro_export]
macro_rules! spelled {
    ($word:ident, $source:ident => $name:ident { $($variant:ident),* $(,)? }) => {
        match [$($name::$variant),*].get($word.0) {
            Some(word) => Ok(*word),
            None => Err($source.fail($crate::source::Fault::UnknownVariant)),
        }
    };
}

/// A node of a sort that a link holds in a part: the part.
#[macro_export]
macro_rules! part {
    ($sort:ident, $source:ident, $make:ident) => {{
        let node: $sort<N> = $crate::reading::read($source, $make)?;
        $crate::reading::held($source, node)
    }};
}
