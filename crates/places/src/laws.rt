// The theory of places: each function's contract is a theorem, and its proof is what the function is for.
ghost use Rattle.places.specs.Claims.{PlacesName, FoundByPlaces, ConflictByPlaces, BeginsPlaced, OpeningPlaces};

// Places name the paths of the table.
pub fn places_name_stands() -> u8
    ensures { PlacesName }
{
    0
}

// What a round finds by places is what it finds by paths.
pub fn found_by_places_stands() -> u8
    ensures { FoundByPlaces }
{
    0
}

// The clause of a conflict, by places.
pub fn conflict_by_places_stands() -> u8
    ensures { ConflictByPlaces }
{
    0
}

// The places are right at the start.
pub fn begins_placed_stands() -> u8
    ensures { BeginsPlaced }
{
    0
}

// An opening keeps the places right, changes one entry, and appends the children in order.
pub fn opening_places_stands() -> u8
    ensures { OpeningPlaces }
{
    0
}
