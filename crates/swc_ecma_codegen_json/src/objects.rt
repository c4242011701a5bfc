//! The members of an object.

use crate::reading::{Make, Parts, ReadFrom};
use crate::source::{Failed, Fault, Form, Source};
use serde::Name;

/// The values of members that are wanted, one in another: `(A, (B, ()))`.
pub trait Wanted<N: Drop>: Sized {
    /// What was read of them.
    type Slots: Drop;

    /// How many they are.
    fn count() -> usize;

    /// Nothing was read yet.
    fn empty() -> Self::Slots;

    /// Reads the member at a place among them, or passes over another one, or refuses it in the
    /// short form. It says no to one that was read before.
    fn fill<S: Source, M: Make<N>>(
        slots: &mut Self::Slots,
        at: usize,
        source: &mut S,
        make: &M,
    ) -> Result<bool, Failed>;

    /// What was read. A member that is missing is an error, unless it may be left out; `at` says
    /// where among the names these begin.
    fn finish<S: Source, M: Make<N>>(
        slots: Self::Slots,
        names: &[Name<'_>],
        at: usize,
        source: &mut S,
        make: &M,
    ) -> Result<Self, Failed>;
}

impl<N: Drop> Wanted<N> for () {
    type Slots = ();

    #[inline(always)]
    fn count() -> usize {
        0
    }

    #[inline(always)]
    fn empty() {}

    #[inline(always)]
    fn fill<S: Source, M: Make<N>>(
        _slots: &mut (),
        _at: usize,
        source: &mut S,
        _make: &M,
    ) -> Result<bool, Failed> {
        source.skip_unwanted()?;
        Ok(true)
    }

    #[inline(always)]
    fn finish<S: Source, M: Make<N>>(
        _slots: (),
        _names: &[Name<'_>],
        _at: usize,
        _source: &mut S,
        _make: &M,
    ) -> Result<(), Failed> {
        Ok(())
    }
}

impl<N: Drop, T: ReadFrom<N> + Drop, R: Wanted<N>> Wanted<N> for (T, R) {
    type Slots = (Option<T>, R::Slots);

    #[inline(always)]
    fn count() -> usize {
        R::count().wrapping_add(1)
    }

    #[inline(always)]
    fn empty() -> (Option<T>, R::Slots) {
        (None, R::empty())
    }

    #[inline(always)]
    fn fill<S: Source, M: Make<N>>(
        slots: &mut (Option<T>, R::Slots),
        at: usize,
        source: &mut S,
        make: &M,
    ) -> Result<bool, Failed> {
        if at != 0 {
            return R::fill(&mut slots.1, at - 1, source, make);
        }
        if slots.0.is_some() {
            return Ok(false);
        }
        slots.0 = Some(T::read_from(source, make)?);
        Ok(true)
    }

    #[inline(always)]
    fn finish<S: Source, M: Make<N>>(
        slots: (Option<T>, R::Slots),
        names: &[Name<'_>],
        at: usize,
        source: &mut S,
        make: &M,
    ) -> Result<(T, R), Failed> {
        let (first, rest) = slots;
        let value = match first {
            Some(value) => value,
            None => left_out(name_at(names, at), source, make)?,
        };
        Ok((
            value,
            R::finish(rest, names, at.wrapping_add(1), source, make)?,
        ))
    }
}

/// What stands for a member that is missing. That is an error, unless it may be left out.
#[inline(always)]
fn left_out<N: Drop, T: ReadFrom<N> + Drop, S: Source, M: Make<N>>(
    name: &str,
    source: &mut S,
    make: &M,
) -> Result<T, Failed> {
    if source.form() == Form::Short {
        if let Some(parts) = T::Parts::left_out() {
            return T::of(parts, source, make);
        }
    }
    Err(source.fail(Fault::Missing(name)))
}

/// The values of members in two groups: what a check does of one member in another it does of each
/// group by itself.
pub struct Both<V, W>(pub V, pub W);

impl<N: Drop, V: Wanted<N> + Drop, W: Wanted<N>> Wanted<N> for Both<V, W> {
    type Slots = (V::Slots, W::Slots);

    #[inline(always)]
    fn count() -> usize {
        V::count().wrapping_add(W::count())
    }

    #[inline(always)]
    fn empty() -> (V::Slots, W::Slots) {
        (V::empty(), W::empty())
    }

    #[inline(always)]
    fn fill<S: Source, M: Make<N>>(
        slots: &mut (V::Slots, W::Slots),
        at: usize,
        source: &mut S,
        make: &M,
    ) -> Result<bool, Failed> {
        match at.checked_sub(V::count()) {
            Some(past) => W::fill(&mut slots.1, past, source, make),
            None => V::fill(&mut slots.0, at, source, make),
        }
    }

    #[inline(always)]
    fn finish<S: Source, M: Make<N>>(
        slots: (V::Slots, W::Slots),
        names: &[Name<'_>],
        at: usize,
        source: &mut S,
        make: &M,
    ) -> Result<Both<V, W>, Failed> {
        let (first, second) = slots;
        let first = V::finish(first, names, at, source, make)?;
        let second = W::finish(second, names, at.wrapping_add(V::count()), source, make)?;
        Ok(Both(first, second))
    }
}

/// The members of an object, in any order. What isn't wanted is passed over, or refused in the
/// short form.
#[inline(always)]
fn gathered<N: Drop, P: Wanted<N>, S: Source, M: Make<N>>(
    names: &[Name<'_>],
    source: &mut S,
    make: &M,
) -> Result<P, Failed> {
    let mut slots = P::empty();
    source.begin_object()?;
    for _ in 0..u64::MAX {
        match source.next_member(names)? {
            None => break,
            Some(at) => {
                if !P::fill(&mut slots, at, source, make)? {
                    return Err(source.fail(Fault::Duplicate(name_at(names, at))));
                }
            }
        }
    }
    P::finish(slots, names, 0, source, make)
}

impl<N: Drop, T: ReadFrom<N> + Drop, R: Wanted<N>> Parts<N> for (T, R) {
    #[inline(always)]
    fn begin<S: Source, M: Make<N>>(
        names: &[Name<'_>],
        source: &mut S,
        make: &M,
    ) -> Result<(T, R), Failed> {
        gathered::<N, (T, R), S, M>(names, source, make)
    }

    #[inline(always)]
    fn end<S: Source>(_source: &mut S) {}
}

impl<N: Drop, V: Wanted<N> + Drop, W: Wanted<N>> Parts<N> for Both<V, W> {
    #[inline(always)]
    fn begin<S: Source, M: Make<N>>(
        names: &[Name<'_>],
        source: &mut S,
        make: &M,
    ) -> Result<Both<V, W>, Failed> {
        gathered::<N, Both<V, W>, S, M>(names, source, make)
    }

    #[inline(always)]
    fn end<S: Source>(_source: &mut S) {}
}

fn name_at<'a>(names: &[Name<'a>], at: usize) -> &'a str {
    match names.get(at) {
        Some(name) => name.name,
        None => "",
    }
}
