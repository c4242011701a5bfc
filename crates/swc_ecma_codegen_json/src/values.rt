//! Flags, texts, numbers, lists, and what may be left out or stands in a box.

use crate::reading::{Make, OrDefault, ReadFrom, Whole};
use crate::source::{Failed, Fault, Source};

impl<N: Drop> ReadFrom<N> for bool {
    type Parts = OrDefault;

    #[inline(always)]
    fn of<S: Source, M: Make<N>>(
        member: OrDefault,
        source: &mut S,
        _make: &M,
    ) -> Result<bool, Failed> {
        if member == OrDefault::LeftOut {
            return Ok(false);
        }
        source.flag()
    }
}

impl<N: Drop> ReadFrom<N> for String {
    type Parts = Whole;

    #[inline(always)]
    fn of<S: Source, M: Make<N>>(
        _whole: Whole,
        source: &mut S,
        _make: &M,
    ) -> Result<String, Failed> {
        source.text()
    }
}

impl<N: Drop> ReadFrom<N> for i32 {
    type Parts = Whole;

    #[inline(always)]
    fn of<S: Source, M: Make<N>>(_whole: Whole, source: &mut S, _make: &M) -> Result<i32, Failed> {
        source.signed()
    }
}

impl<N: Drop, T: ReadFrom<N>> ReadFrom<N> for Option<T> {
    type Parts = OrDefault;

    #[inline(always)]
    fn of<S: Source, M: Make<N>>(
        member: OrDefault,
        source: &mut S,
        make: &M,
    ) -> Result<Option<T>, Failed> {
        if member == OrDefault::LeftOut || source.skip_if_null()? {
            return Ok(None);
        }
        Ok(Some(T::read_from(source, make)?))
    }
}

impl<N: Drop, T: ReadFrom<N> + Drop> ReadFrom<N> for Vec<T> {
    type Parts = OrDefault;

    fn of<S: Source, M: Make<N>>(
        member: OrDefault,
        source: &mut S,
        make: &M,
    ) -> Result<Vec<T>, Failed> {
        let mut found = Vec::new(source.alloc());
        if member == OrDefault::LeftOut {
            return Ok(found);
        }
        source.begin_list()?;
        for _ in 0..u64::MAX {
            if !source.next_item()? {
                break;
            }
            let item = T::read_from(source, make)?;
            if found.push(item).is_err() {
                return Err(source.fail(Fault::NoMemory));
            }
        }
        found.shrink_to_fit();
        Ok(found)
    }
}

impl<N: Drop, T: ReadFrom<N> + Drop> ReadFrom<N> for Box<T> {
    type Parts = Whole;

    fn of<S: Source, M: Make<N>>(
        _whole: Whole,
        source: &mut S,
        make: &M,
    ) -> Result<Box<T>, Failed> {
        let value = T::read_from(source, make)?;
        match Box::new(source.alloc(), value) {
            Ok(held) => Ok(held),
            Err(_) => Err(source.fail(Fault::NoMemory)),
        }
    }
}
