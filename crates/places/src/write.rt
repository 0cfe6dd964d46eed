// Writing the image of a place.
ghost use Rattle.std.specs.Prelude.{◌≡◌, ◌≤◌, length};
ghost use Rattle.expression.specs.Limits.{most_record_bytes};
ghost use Rattle.run.specs.Image.{image_of};
ghost use Rattle.places.specs.Store.{slot_bytes};

use expression::bytes;

// The slot has the image of a place that holds the record of these bytes.
pub fn image(slot: &mut [u8], bytes: &[u8])
    requires room { length slot.old ≡ slot_bytes }
    requires short { length bytes.now ≤ most_record_bytes }
    ensures { slot.new ≡ image_of bytes.now }
{
    let length = bytes.len();
    let (record, rest) = slot.split_at_mut(1 + length);
    record[0] = length as u8;
    bytes::copy(bytes, &mut record[1..]);
    rest.fill(0);
}
