// The examples in the READMEs of these libraries, as they are written there.
mod of_parfield;
mod of_parfixtures;
mod of_parsalvage;
mod of_parset;
mod of_parshelf;
