ghost use Rattle.std.specs.Prelude.{◌≡◌, ◌+◌, ◌-◌, ◌<◌, ◌^◌, ◌++◌, [], length, replicate, slice_set, slice_get, slice_index_or, Some, OnOk, OnErr, pos};
ghost use Rattle.value_store.specs.declared.value.Value.TheVariants as value;
ghost use Rattle.smallvec.specs.SmallVec.{HasRoomFor};

use smallvec::SmallVec;
use std::alloc::Global;
use std::marker::Model;
use value_store::{NoMemory, Value};

/// The values of the variables that patterns bind, by the numbers of the variables. Up to eight of
/// them take no memory.
#[derive(Drop)]
pub struct Bindings {
    values: SmallVec<Value, 8>,
}

impl Model for Bindings {
    ghost use Rattle.puma_model.specs.BoundValues.{BoundValues};

    ghost Value = { BoundValues };

    ghost view = { λ b. b.values.items };
}

impl Bindings {
    /// No values.
    pub fn new(alloc: Global) -> Bindings
        ensures { result ≡ [] }
    {
        Bindings {
            values: SmallVec::new(alloc),
        }
    }

    /// Makes the list at least `n` long. New places are 0.
    pub fn reserve(&mut self, n: usize) -> Result<(), NoMemory>
        ensures ok { OnOk result (self.new
            ≡ self.old ++ replicate (n - length self.old) (value.Int (pos 0))) }
        ensures err { OnErr result (self.new ≡ self.old) }
    {
        let len = self.values.len();
        if len < n {
            self.values.reserve(n - len)?;
            add_zeros(&mut self.values, n - len);
        }
        Ok(())
    }

    /// The value at a place.
    pub fn get(&self, i: u32) -> Value
        requires { i < length self.now }
        ensures { slice_get self.now i ≡ Some result }
    {
        value_at(self.values.as_slice(), i as usize)
    }

    /// Puts the value at a place.
    pub fn set(&mut self, i: u32, v: Value)
        requires { i < length self.old }
        ensures { self.new ≡ slice_set self.old i v }
    {
        self.put(i as usize, v);
    }

    /// Puts the value at a place, of however many there are.
    pub(crate) fn put(&mut self, i: usize, v: Value)
        requires { i < length self.old }
        ensures is { self.new ≡ slice_set self.old i v }
        ensures fits { i + 1 < 2 ^ 64 }
    {
        let values = self.values.as_mut_slice();
        values[i] = v;
    }

    /// The values.
    pub fn values(&self) -> &[Value]
        ensures { result.now ≡ self.now }
    {
        self.values.as_slice()
    }
}

/// Adds so many zeros, for which there is room.
fn add_zeros(values: &mut SmallVec<Value, 8>, n: usize)
    requires { HasRoomFor values.old n }
    ensures { values.new.items ≡ values.old.items ++ replicate n (value.Int (pos 0)) }
{
    for _turn in 0..n {
        values.push_reserved(Value::Int(0));
    }
}

/// The value at a place that there is.
pub(crate) fn value_at(values: &[Value], i: usize) -> Value
    requires { i < length values.now }
    ensures { slice_get values.now i ≡ Some result }
{
    values[i]
}
