//! The arrays of a case, by name.

ghost use Rattle.std.specs.Prelude.{IfOk};
ghost use Rattle.polars_arrays_nested.specs.GoodParts.{IsGood};
ghost use Rattle.recorded_text.specs.Cases.{HasGoodArrays};

use crate::fault::Fault;
use crate::words::Words;
use polars_arrays_nested::any_array::AnyArray;
use std::alloc::Global;

/// An array and its name.
#[derive(Drop)]
struct NamedArray {
    name: String,
    array: AnyArray,
}

/// The arrays of a case. No two of them have the same name.
#[derive(Drop)]
pub struct Store {
    arrays: Vec<NamedArray>,
}

impl Store {
    /// Creates an empty store.
    pub fn new(alloc: Global) -> Store
        ensures { HasGoodArrays result }
    {
        Store {
            arrays: Vec::new(alloc),
        }
    }

    /// Removes all arrays.
    pub fn clear(&mut self)
        ensures { HasGoodArrays self.new }
    {
        self.arrays.clear();
    }

    /// Adds an array under a name. If there is an error, the array is dropped, and the store is
    /// unchanged. The error is `Case` if the store already has an array with this name, and
    /// `Memory` if an allocation fails.
    pub fn add(&mut self, alloc: Global, name: &str, array: AnyArray) -> Result<(), Fault>
        requires arrays { HasGoodArrays self.old }
        requires array { IsGood array }
        ensures { HasGoodArrays self.new }
    {
        match self.new_name(alloc, name) {
            Ok(name) => self.push(NamedArray { name, array }),
            Err(fault) => {
                drop(array);
                Err(fault)
            }
        }
    }

    // Returns a copy of `name`. The error is `Case` if an array of the store already has this name,
    // and `Memory` if an allocation fails.
    fn new_name(&self, alloc: Global, name: &str) -> Result<String, Fault>
        requires { HasGoodArrays self.now }
    {
        if self.array(name).is_ok() {
            return Err(Fault::Case);
        }
        Ok(name.to_string(alloc)?)
    }

    // Appends an array with its name. Doesn't check whether the name is new. The error is `Memory`.
    fn push(&mut self, named: NamedArray) -> Result<(), Fault>
        requires arrays { HasGoodArrays self.old }
        requires array { IsGood named.array }
        ensures { HasGoodArrays self.new }
    {
        self.arrays.push(named)?;
        Ok(())
    }

    /// Returns the array with this name. The error is `Case` if there is none.
    pub fn array(&self, name: &str) -> Result<&AnyArray, Fault>
        requires { HasGoodArrays self.now }
        ensures { IfOk result (λ array. IsGood array.now) }
    {
        for named in &self.arrays {
            if named.name.as_str() == name {
                return Ok(&named.array);
            }
        }
        Err(Fault::Case)
    }

    /// Reads a name from the next word, and returns the array with this name. The error is `Word`
    /// if no word is left, and `Case` if no array has the name.
    pub fn read(&self, words: &mut Words) -> Result<&AnyArray, Fault>
        requires { HasGoodArrays self.now }
        ensures { IfOk result (λ array. IsGood array.now) }
    {
        self.array(words.read()?)
    }
}
