// Lists at the ground: a list given by its entries, exclusive or, arrays that a loop fills, and the first elements of a list, which a loop
// visits. Definitions and laws only; they know no layer.
