// Functions for bench/, which times them beside C: on numbers and byte slices alone, called by C's convention. No product calls them.
mod fold;
mod nodes;
mod reads;
mod writes;
