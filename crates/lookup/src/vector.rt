// A vector of a file by its id, and a component of one. The search is one; what is found is read off the file.
ghost use Rattle.std.specs.Prelude.{◌≡◌};
ghost use Rattle.reading.specs.Answers.{vector_case, vector_after, value_in};
ghost use Rattle.answers.specs.Answer.{number, numbered};
ghost use Rattle.reading.specs.Component.{component_case, kind_answer, bits_case, bits_answer};
ghost use Rattle.lookup.specs.vector.Value.{PlacedValue};

use answers::Refusal;
use reading::ComponentBits;
use vecseg::{Component, Vector};

// Where a component's value stands in the file, with its dtype.
#[derive(Clone, Copy)]
pub struct ValuePlace {
    pub at: usize,
    pub dtype: u8,
}

// The vector's bytes in dimension order at the front of a buffer: 1, 2, then the search with its 4, 5, 6, 7, then 8,
// then 9.
pub fn vector(file: &[u8], id: u64, buf: &mut [u8]) -> Result<Vector, Refusal>
    ensures answer { numbered result ≡ vector_case file.now id buf.old }
    ensures buf { buf.new ≡ vector_after file.now id buf.old }
{
    let Some(located) = crate::in_file::find(file, id)? else {
        return Err(Refusal::NoVector);
    };
    let end = located.body + located.length;
    let place = located.place;
    let length = vec_read::values::read_vector(&file[located.body..end], place, buf)?;
    Ok(Vector {
        dim: place.dim,
        dtype: place.dtype,
        length,
    })
}

// Where a component's value stands. The index is looked at after the search: a bad segment wins over an index that is
// too large.
fn value_place(file: &[u8], id: u64, component: u64) -> Result<ValuePlace, Refusal>
    ensures { PlacedValue file.now (value_in file.now id component) result }
{
    let Some(located) = crate::in_file::find(file, id)? else {
        return Err(Refusal::NoVector);
    };
    let place = located.place;
    if component >= place.dim as u64 {
        return Err(Refusal::NoVector);
    }
    let d = component as usize;
    let width = vec_read::width::width_of(place.dtype as u64);
    Ok(ValuePlace {
        at: located.body + (place.offset + (d * place.count + place.index) * width),
        dtype: place.dtype,
    })
}

// A component of the vector with an id, by its index: 1, 2, the search, then 8.
pub fn component(file: &[u8], id: u64, index: u64) -> Result<Component, Refusal>
    ensures kind { numbered result ≡ component_case (value_in file.now id index) }
    ensures number { number (kind_answer (numbered result)) ≡ number
        (bits_answer (bits_case (value_in file.now id index))) }
{
    let place = value_place(file, id, index)?;
    Ok(vec_read::values::component_at(file, place.at, place.dtype))
}

// The same by its bytes.
pub fn component_bits(file: &[u8], id: u64, index: u64) -> Result<ComponentBits, Refusal>
    ensures { numbered result ≡ bits_case (value_in file.now id index) }
{
    let place = value_place(file, id, index)?;
    let bits = if place.dtype == 0 {
        octets::le::u32_at(file, place.at)
    } else {
        file[place.at] as u32
    };
    Ok(ComponentBits {
        dtype: place.dtype,
        bits,
    })
}
