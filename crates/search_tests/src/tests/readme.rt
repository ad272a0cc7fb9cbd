// The examples in the READMEs of these libraries, as they are written there.
mod of_parfind;
mod of_parwindow;
