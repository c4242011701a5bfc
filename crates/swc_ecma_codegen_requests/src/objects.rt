//! What is read of a request besides its parts.

use serde::{Deserialize, DeserializeOwned, Deserializer, Format, Kind};
use std::alloc::Global;

/// What is read of an object. An array of its members' values, which serde takes for a struct too,
/// is refused.
#[derive(Drop, Debug, Clone, Copy, Default, PartialEq, Eq)]
pub(crate) struct Object<T>(pub(crate) T);

impl<T: DeserializeOwned> DeserializeOwned for Object<T> {
    fn deserialize_owned<F: Format>(
        alloc: Global,
        from: &mut Deserializer<'_, '_, F>,
    ) -> Result<Object<T>, F::Error> {
        if from.peek()? != Kind::Map {
            from.begin_map()?;
        }
        match T::deserialize_owned(alloc, from) {
            Ok(value) => Ok(Object(value)),
            Err(error) => Err(error),
        }
    }
}

impl<'de, T: DeserializeOwned> Deserialize<'de> for Object<T> {
    fn deserialize<F: Format>(
        alloc: Global,
        from: &mut Deserializer<'de, '_, F>,
    ) -> Result<Object<T>, F::Error> {
        Object::<T>::deserialize_owned(alloc, from)
    }
}

/// Whether a member is there, whose value is passed over.
#[derive(Debug, Clone, Copy, Default, PartialEq, Eq)]
pub(crate) struct Presence(pub(crate) bool);

impl DeserializeOwned for Presence {
    fn deserialize_owned<F: Format>(
        _alloc: Global,
        from: &mut Deserializer<'_, '_, F>,
    ) -> Result<Presence, F::Error> {
        from.skip()?;
        Ok(Presence(true))
    }
}

impl<'de> Deserialize<'de> for Presence {
    fn deserialize<F: Format>(
        alloc: Global,
        from: &mut Deserializer<'de, '_, F>,
    ) -> Result<Presence, F::Error> {
        Presence::deserialize_owned(alloc, from)
    }
}
