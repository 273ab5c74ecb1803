//! Laws of listings.

ghost use Rattle.vcm_listing.specs.Laws.{ListingIsRead, ReadIsListing, ListingsDiffer, OneFault, NoneOfValid, PrintedIsRead};

/// The listing of a code whose fields are in range is read as that code; what is read as a code is its listing, byte for byte.
pub fn listings_are_read()
    ensures again { ListingIsRead }
    ensures only { ReadIsListing }
{}

/// Different codes have different listings.
pub fn listings_differ()
    ensures { ListingsDiffer }
{}

/// Bytes are refused with one fault only, and the listing of a valid code is not refused.
pub fn faults_are_one()
    ensures one { OneFault }
    ensures none { NoneOfValid }
{}

/// The listing of an image that is printed and read is that image.
pub fn printed_is_read()
    ensures { PrintedIsRead }
{}
