// The text of a picture.
ghost use Rattle.std.specs.Prelude.{◌≡◌, ◌++◌, ◌∷◌, [], OnOk, IfOk, flat_map, codes, string_bytes};
ghost use Rattle.svg_text.specs.Text as spec;

use crate::escaping::{push_escaped, push_raw};
use crate::{Attribute, Group, Picture, Shape};
use std::alloc::{AllocError, Global};

/// The text of a picture: an `svg` element with its size, its title, its style and its groups.
pub fn text(alloc: Global, picture: &Picture) -> Result<Vec<u8>, AllocError>
    ensures text { IfOk result (λ bytes. bytes.items ≡ spec.svg_text picture.now) }
    ensures formed { IfOk result (λ bytes. spec.IsPicture bytes.items) }
{
    let bytes = element(alloc, picture)?;
    Ok(bytes)
}

// The element that holds the whole picture.
fn element(alloc: Global, picture: &Picture) -> Result<Vec<u8>, AllocError>
    ensures { IfOk result (λ bytes. bytes.items ≡ spec.svg_text picture.now) }
{
    let mut out = Vec::new(alloc);
    push_head(alloc, &mut out, picture)?;
    push_words(&mut out, "title", picture.title())?;
    push_words(&mut out, "style", picture.style())?;
    push_groups(&mut out, picture.groups())?;
    push_close(&mut out, "svg")?;
    Ok(out)
}

// The size of a picture, as a viewer takes it.
fn view_box(alloc: Global, picture: &Picture) -> Result<String, AllocError>
    ensures { IfOk result (λ size. string_bytes size ≡ spec.view_box picture.now) }
{
    let width = picture.width();
    let height = picture.height();
    let size = format!(in alloc; "0 0 {width} {height}")?;
    Ok(size)
}

// The attributes of the picture's own element.
fn picture_attributes(alloc: Global, picture: &Picture) -> Result<Vec<Attribute>, AllocError>
    ensures { IfOk result (λ made. made.items ≡ spec.picture_attributes picture.now) }
{
    let size = view_box(alloc, picture)?;
    let mut made = Vec::new(alloc);
    made.push(Attribute::new(alloc, "xmlns", "http://www.w3.org/2000/svg")?)?;
    made.push(Attribute::new(alloc, "viewBox", size.as_str())?)?;
    made.push(Attribute::new(alloc, "role", "img")?)?;
    Ok(made)
}

// Adds the tag that opens the picture.
fn push_head(alloc: Global, out: &mut Vec<u8>, picture: &Picture) -> Result<(), AllocError>
    ensures { OnOk result (out.new.items ≡ out.old.items ++ spec.open_text (codes "svg") (spec.picture_attributes picture.now)) }
{
    let attributes = picture_attributes(alloc, picture)?;
    push_open(out, "svg", &attributes)
}

fn push_groups(out: &mut Vec<u8>, groups: &[Group]) -> Result<(), AllocError>
    ensures { OnOk result (out.new.items ≡ out.old.items ++ flat_map spec.group_text groups.now) }
{
    for group in groups {
        push_group(out, group)?;
    }
    Ok(())
}

fn push_group(out: &mut Vec<u8>, group: &Group) -> Result<(), AllocError>
    ensures { OnOk result (out.new.items ≡ out.old.items ++ spec.group_text group.now) }
{
    push_group_open(out, group)?;
    push_words(out, "title", group.title())?;
    push_shapes(out, group.shapes())?;
    push_close(out, "g")
}

// Adds the tag that opens a group.
fn push_group_open(out: &mut Vec<u8>, group: &Group) -> Result<(), AllocError>
    ensures { OnOk result (out.new.items ≡ out.old.items ++ spec.open_text (codes "g") (spec.class_of group.now ∷ group.now.attributes)) }
{
    push_start(out, "g")?;
    push_pair(out, "class", group.class())?;
    push_attributes(out, group.attributes())?;
    push_raw(out, ">")
}

fn push_shapes(out: &mut Vec<u8>, shapes: &[Shape]) -> Result<(), AllocError>
    ensures { OnOk result (out.new.items ≡ out.old.items ++ flat_map spec.shape_text shapes.now) }
{
    for shape in shapes {
        push_shape(out, shape)?;
    }
    Ok(())
}

fn push_shape(out: &mut Vec<u8>, shape: &Shape) -> Result<(), AllocError>
    ensures { OnOk result (out.new.items ≡ out.old.items ++ spec.shape_text shape.now) }
{
    push_open(out, shape.name(), shape.attributes())?;
    push_title(out, shape.title())?;
    push_escaped(out, shape.words())?;
    push_close(out, shape.name())
}

// Adds the title of a shape, if it has one.
fn push_title(out: &mut Vec<u8>, words: &str) -> Result<(), AllocError>
    ensures { OnOk result (out.new.items ≡ out.old.items ++ spec.title_text words.now) }
{
    if words.is_empty() {
        Ok(())
    } else {
        push_words(out, "title", words)
    }
}

// Adds an element that has only words in it.
fn push_words(out: &mut Vec<u8>, name: &str, words: &str) -> Result<(), AllocError>
    ensures { OnOk result (out.new.items ≡ out.old.items ++ spec.element_text name.now [] (spec.escape words.now)) }
{
    push_open(out, name, &[])?;
    push_escaped(out, words)?;
    push_close(out, name)
}

// Adds the tag that opens an element.
fn push_open(out: &mut Vec<u8>, name: &str, attributes: &[Attribute]) -> Result<(), AllocError>
    ensures { OnOk result (out.new.items ≡ out.old.items ++ spec.open_text name.now attributes.now) }
{
    push_start(out, name)?;
    push_attributes(out, attributes)?;
    push_raw(out, ">")
}

// Adds the beginning of a tag.
fn push_start(out: &mut Vec<u8>, name: &str) -> Result<(), AllocError>
    ensures { OnOk result (out.new.items ≡ out.old.items ++ codes "<" ++ name.now) }
{
    push_raw(out, "<")?;
    push_raw(out, name)
}

fn push_attributes(out: &mut Vec<u8>, attributes: &[Attribute]) -> Result<(), AllocError>
    ensures { OnOk result (out.new.items ≡ out.old.items ++ flat_map spec.attribute_text attributes.now) }
{
    for attribute in attributes {
        push_pair(out, attribute.name(), attribute.value())?;
    }
    Ok(())
}

// Adds an attribute, after a space.
fn push_pair(out: &mut Vec<u8>, name: &str, value: &str) -> Result<(), AllocError>
    ensures { OnOk result (out.new.items ≡ out.old.items ++ spec.attribute_text (record { name = name.now; value = value.now })) }
{
    push_raw(out, " ")?;
    push_raw(out, name)?;
    push_raw(out, "=\"")?;
    push_escaped(out, value)?;
    push_raw(out, "\"")
}

// Adds the tag that closes an element.
fn push_close(out: &mut Vec<u8>, name: &str) -> Result<(), AllocError>
    ensures { OnOk result (out.new.items ≡ out.old.items ++ spec.close_text name.now) }
{
    push_raw(out, "</")?;
    push_raw(out, name)?;
    push_raw(out, ">\n")
}
